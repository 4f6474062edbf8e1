// A buffer of fixed size.
ghost use Rattle.std.specs.Prelude.{◌≡◌, ◌<◌, ◌≤◌, ◌↔◌, ℕ, List, All, length, take, replicate, IsSome, OnSome, IfNone};
ghost use Rattle.tool_script.specs.Words.{IsBytes, bytes_word};

use crate::text;

// An array with how much of its front is in use: a Vec would allocate. The library's `ArrayVec` lends for writing no byte that is not in use, so that
// `read` and `fill` would push one at a time, and it writes over each byte that `clear` takes out.
#[derive(Drop)]
pub struct Buffer<const SIZE: usize> {
    bytes: [u8; SIZE],
    len: usize,
    ghost fits: { len ≤ SIZE },
}

impl<const SIZE: usize> Buffer<SIZE> {
    // A buffer with no byte in use.
    pub fn new() -> Self
        ensures { result.len ≡ 0 }
    {
        Buffer {
            bytes: [0; SIZE],
            len: 0,
        }
    }

    // The part that is in use.
    pub fn as_slice(&self) -> &[u8]
        ensures { result.now ≡ take self.now.len self.now.bytes }
    {
        &self.bytes[..self.len]
    }

    pub fn as_mut_slice(&mut self) -> &mut [u8]
        ensures { result.now ≡ take self.old.len self.old.bytes }
    {
        let len = self.len;
        let bytes = &mut self.bytes;
        let all = &mut bytes[..];
        &mut all[..len]
    }

    // No byte is in use any more.
    pub fn clear(&mut self)
        ensures { self.new.len ≡ 0 }
    {
        self.len = 0;
    }

    // So many bytes of one value are in use, where the buffer has room for them.
    pub fn fill(&mut self, byte: u8, len: usize) -> Option<()>
        ensures variant { IsSome result ↔ (len ≤ SIZE) }
        ensures filled { OnSome result (take self.new.len self.new.bytes ≡ replicate len byte) }
        ensures kept { IfNone result (self.new ≡ self.old) }
    {
        if SIZE < len {
            return None;
        }
        text::fill(&mut self.bytes, byte, len);
        self.len = len;
        Some(())
    }

    // BYTES are in use, where the word is such and the buffer has room for them; else as many bytes as before.
    pub fn read(&mut self, word: &[u8]) -> Option<()>
        ensures word { OnSome result (IsBytes word.now self.new.len) }
        ensures values { OnSome result (word.now ≡ bytes_word (take self.new.len self.new.bytes)) }
        ensures none { IfNone result ((values : List ℕ) → All (λ byte. byte < 256) values → word.now ≡ bytes_word values → SIZE < length values) }
        ensures kept { IfNone result (self.new.len ≡ self.old.len) }
    {
        self.len = text::bytes(word, &mut self.bytes)?;
        Some(())
    }
}
