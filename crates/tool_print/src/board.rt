// The sizes of the cases: words of 4 or of 8 bytes, pages of 8 words, volumes of 4 pages.
ghost use Rattle.std.specs.Prelude.{◌≡◌, ◌==◌, if◌then◌else◌, ◌+◌, ◌*◌, ◌%◌, ◌<◌, ◌≤◌};
ghost use Rattle.page.specs.Sizes.{Sizes, ceiling, wrap};

use page::word::WordWidth;

// How many pages a volume of the cases has.
pub const PAGES: usize = 4;

// A board, by the width of its words.
#[derive(Clone, Copy)]
pub struct Board {
    pub width: WordWidth,
}

impl Board {
    // A board with words of 8 bytes; any other width is taken for 4, so that nothing is asked of a caller.
    pub fn new(width: usize) -> Self
        ensures { result.width.bytes ≡ (if width == 8 then 8 else 4) }
    {
        Board {
            width: WordWidth {
                bytes: if width == 8 { 8 } else { 4 },
            },
        }
    }

    // So many words, in bytes.
    pub fn words(self, n: u8) -> usize
        ensures value { result ≡ self.width.bytes * n }
        ensures below { result < 2048 }
    {
        self.width.bytes * usize::from(n)
    }

    // So many pages, words and bytes: an ID or a length.
    pub fn count(self, pages: u8, words: u8, bytes: u8) -> usize
        ensures value { result ≡ 8 * (self.width.bytes * pages) + self.width.bytes * words + bytes }
        ensures below { result < 20000 }
    {
        8 * self.words(pages) + self.words(words) + usize::from(bytes)
    }

    // P, the length of a page, and that of a volume.
    pub fn page_size(self) -> usize
        ensures value { result ≡ 8 * self.width.bytes }
        ensures sizes { Sizes self.width.bytes result 4 }
        ensures bounds { (0 < result) × (result ≤ 64) × (4096 % result ≡ 0) }
    {
        8 * self.width.bytes
    }

    pub fn volume_size(self) -> usize
        ensures value { result ≡ 32 * self.width.bytes }
        ensures whole { result % (8 * self.width.bytes) ≡ 0 }
    {
        PAGES * self.page_size()
    }

    // The ceiling C, and the largest word.
    pub fn ceiling(self) -> usize
        ensures value { result ≡ ceiling self.width.bytes }
        ensures least { 16777216 < result }
        ensures most { result ≤ 8070450532247928832 }
    {
        page::header::ceiling(self.width)
    }

    pub fn largest_word(self) -> usize
        ensures value { result + 1 ≡ wrap self.width.bytes }
        ensures least { 4294967295 ≤ result }
    {
        if self.width.bytes == 8 {
            usize::MAX
        } else {
            4294967295
        }
    }
}
