// A line, read word by word.
ghost use Rattle.std.specs.Prelude.{◌≡◌, ◌==◌, ◌<◌, ◌≤◌, ◌↔◌, ℕ, List, All, length, take, position, IsOk, IfOk, IfErr, ◌≢◌, ◌∷◌};
ghost use Rattle.std.specs.Iterator.{YieldsFirstRef, item_count};
ghost use Rattle.std.specs.Str.Parse.{digits_value};
ghost use Rattle.tool_script.specs.Words.{words_of, words_left, IsTaken, IsNumber, IsBytes, bytes_word};

use crate::buffer::Buffer;
use crate::fault::Fault;
use crate::text;

// What one of a few words stands for. `spelled` is the word of a value, and a word is read where it is one of these.
pub trait Word: Sized {
    ghost use Rattle.std.specs.Prelude.{ℕ, List, ◌≡◌, ◌≢◌, IfSome, IfNone};

    ghost spelled: { Self → List ℕ };

    fn from_word(word: &[u8]) -> Option<Self>
        ensures is { IfSome result (λ value. word.now ≡ spelled value) }
        ensures none { IfNone result ((value : Self) → word.now ≢ spelled value) };
}

// The words of a line that are left. One space stands between two.
#[derive(Clone, Copy)]
pub struct Words<'a> {
    rest: Option<&'a [u8]>,
}

impl<'a> Words<'a> {
    pub fn new(line: &'a [u8]) -> Self
        ensures { words_left result.rest ≡ words_of line.now }
    {
        Words { rest: Some(line) }
    }

    // The words, where no more than so many are left.
    pub fn at_most(self, count: usize) -> Result<Self, Fault>
        ensures variant { IsOk result ↔ (length (words_left self.entry.rest) ≤ count) }
        ensures same { IfOk result (λ words. words ≡ self.entry) }
    {
        let mut ahead = self;
        match ahead.nth(count) {
            None => Ok(self),
            Some(_) => Err(Fault::Words),
        }
    }

    // A number.
    pub fn number(&mut self) -> Result<usize, Fault>
        ensures number { IfOk result (λ n. (word : List ℕ) × IsTaken word self.old.rest self.new.rest × IsNumber word × (n ≡ digits_value 10 word)) }
        ensures none { IfErr result (λ fault. (word : List ℕ) → (others : List (List ℕ)) → words_left self.old.rest ≡ word ∷ others → ¬ IsNumber word) }
    {
        self.next().and_then(text::number).ok_or(Fault::Number)
    }

    // A number up to a limit.
    pub fn number_up_to(&mut self, limit: usize) -> Result<usize, Fault>
        ensures number { IfOk result (λ n. (word : List ℕ) × IsTaken word self.old.rest self.new.rest × IsNumber word × (n ≡ digits_value 10 word)) }
        ensures limit { IfOk result (λ n. n ≤ limit) }
        ensures none { IfErr result (λ fault. (word : List ℕ) → (others : List (List ℕ)) → words_left self.old.rest ≡ word ∷ others → IsNumber word
            → limit < digits_value 10 word) }
    {
        let n = self.number()?;
        if limit < n {
            return Err(Fault::Number);
        }
        Ok(n)
    }

    // A stamp: a number below 2^32.
    pub fn stamp(&mut self) -> Result<u32, Fault>
        ensures number { IfOk result (λ n. (word : List ℕ) × IsTaken word self.old.rest self.new.rest × IsNumber word × (n ≡ digits_value 10 word)) }
        ensures none { IfErr result (λ fault. (word : List ℕ) → (others : List (List ℕ)) → words_left self.old.rest ≡ word ∷ others → IsNumber word
            → 4294967295 < digits_value 10 word) }
    {
        Ok(self.number_up_to(4294967295)? as u32)
    }

    // BYTES, into a buffer.
    pub fn bytes<const SIZE: usize>(&mut self, buffer: &mut Buffer<SIZE>) -> Result<(), Fault>
        ensures taken { IfOk result (λ done. (word : List ℕ) × IsTaken word self.old.rest self.new.rest × IsBytes word buffer.new.len) }
        ensures values { IfOk result (λ done. IsTaken (bytes_word (take buffer.new.len buffer.new.bytes)) self.old.rest self.new.rest) }
        ensures none { IfErr result (λ fault. (values : List ℕ) → (others : List (List ℕ)) → All (λ byte. byte < 256) values
            → words_left self.old.rest ≡ bytes_word values ∷ others → SIZE < length values) }
        ensures kept { IfErr result (λ fault. buffer.new.len ≡ buffer.old.len) }
    {
        let word = self.next().ok_or(Fault::Bytes)?;
        buffer.read(word).ok_or(Fault::Bytes)
    }

    // One of a few words.
    pub fn word<W: Word>(&mut self) -> Result<W, Fault>
        ensures taken { IfOk result (λ value. IsTaken (W.spelled value) self.old.rest self.new.rest) }
        ensures none { IfErr result (λ fault. (value : W) → (others : List (List ℕ)) → words_left self.old.rest ≢ W.spelled value ∷ others) }
    {
        let word = self.next().ok_or(Fault::Word)?;
        W::from_word(word).ok_or(Fault::Word)
    }
}

// Where the first space stands.
fn space(text: &[u8]) -> Option<usize>
    ensures { result ≡ position (λ byte. byte == 32) text.now }
{
    text.iter().position(|byte| *byte == b' ')
}

impl<'a> Iterator for Words<'a> {
    type Item = &'a [u8];

    ghost next_gives = { YieldsFirstRef (λ s. words_left s.rest) };

    ghost remaining = { item_count (λ s. words_left s.rest) };

    fn next(&mut self) -> Option<&'a [u8]> {
        let text = self.rest?;
        let Some(end) = space(text) else {
            self.rest = None;
            return Some(text);
        };
        self.rest = Some(&text[end + 1..]);
        Some(&text[..end])
    }
}
