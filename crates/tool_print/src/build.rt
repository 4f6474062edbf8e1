// Pages to run the cases on. What doesn't fit is left out, so that nothing is asked of a caller.
ghost use Rattle.std.specs.Prelude.{◌≡◌, ◌+◌, ◌<◌, ◌≤◌, length, replicate};
ghost use Rattle.page.specs.Word.{word_bytes};
ghost use Rattle.page.specs.Bytes.{overwrite};
ghost use Rattle.page.specs.Layout.{encode};

use crate::board::Board;

impl Board {
    // A bare word at an offset: a header, or a damaged page's length.
    pub fn word(self, page: &mut [u8], at: usize, n: usize)
        ensures fits { at + self.width.bytes ≤ length page.old → page.new ≡ overwrite page.old at (word_bytes self.width.bytes n) }
        ensures too_far { length page.old < at + self.width.bytes → page.new ≡ page.old }
    {
        if self.width.bytes <= page.len().saturating_sub(at) {
            page::word::write_word(self.width, page, at, n);
        }
    }

    // An entry of n bytes, all 7, at an offset, and the offset past it.
    pub fn sevens(self, page: &mut [u8], at: usize, n: usize) -> usize
        ensures fits { n ≤ 64 → at + self.width.bytes + n ≤ length page.old
            → (result ≡ at + self.width.bytes + n) × (page.new ≡ overwrite page.old at (encode self.width.bytes (replicate n 7))) }
        ensures too_far { length page.old < at + self.width.bytes + n → (result ≡ at) × (page.new ≡ page.old) }
    {
        let data = [7; 64];
        if n <= data.len() && self.width.bytes + n <= page.len().saturating_sub(at) {
            page::layout::write_entry(self.width, page, at, &data[..n]);
            return at + self.width.bytes + n;
        }
        at
    }

    // A page with this header and one entry of n bytes.
    pub fn page(self, page: &mut [u8], id: usize, n: usize)
        ensures fits { n ≤ 64 → self.width.bytes + self.width.bytes + n ≤ length page.old
            → page.new ≡ overwrite (overwrite page.old 0 (word_bytes self.width.bytes id)) self.width.bytes (encode self.width.bytes (replicate n 7)) }
    {
        self.word(page, 0, id);
        self.sevens(page, self.width.bytes, n);
    }
}
