// The script's text: parts of it, numbers and bytes.
ghost use Rattle.std.specs.Prelude.{◌≡◌, ◌≢◌, ◌≤◌, ◌<◌, ◌⊎◌, ℕ, List, All, [], ◌∷◌, length, take, replicate, slice_range, IfSome, IfNone, SomeIff};
ghost use Rattle.std.specs.Str.Parse.{digits_value};
ghost use Rattle.tool_script.specs.Words.{IsNumber, IsBytes, hex_digit, hex_digits, bytes_word};

use std::str;

// The part of a text from `from` to `to`; none where it has no such part.
pub fn part(text: &[u8], from: usize, to: usize) -> &[u8]
    ensures inside { from ≤ to → to ≤ length text.now → result.now ≡ slice_range text.now from to }
    ensures outside { (to < from) ⊎ (length text.now < to) → result.now ≡ [] }
{
    text.get(from..to).unwrap_or(&[])
}

// The front of a buffer, as much as is asked for and there is.
pub fn front<T>(buffer: &mut [T], n: usize) -> &mut [T]
    ensures { result.now ≡ take n buffer.old }
{
    let end = n.min(buffer.len());
    &mut buffer[..end]
}

// The front of a buffer gets one value.
pub(crate) fn fill(buffer: &mut [u8], byte: u8, len: usize)
    requires { len ≤ length buffer.old }
    ensures { take len buffer.new ≡ replicate len byte }
{
    buffer[..len].fill(byte);
}

// 1 to 20 decimal digits, below 2^64.
pub fn number(word: &[u8]) -> Option<usize>
    ensures { SomeIff result (IsNumber word.now) (digits_value 10 word.now) }
{
    match word {
        [b'+', ..] => None,
        _ if 20 < word.len() => None,
        _ => str::from_utf8(word).ok()?.parse().ok(),
    }
}

// What a lower-case hexadecimal digit stands for.
fn digit(byte: u8) -> Option<u8>
    ensures is { IfSome result (λ d. (d < 16) × (byte ≡ hex_digit d)) }
    ensures none { IfNone result ((d : ℕ) → d < 16 → byte ≢ hex_digit d) }
{
    match byte {
        b'0'..=b'9' => Some(byte - b'0'),
        b'a'..=b'f' => Some(byte - b'a' + 10),
        _ => None,
    }
}

// Two digits as a byte.
fn pair(high: u8, low: u8) -> Option<u8>
    ensures is { IfSome result (λ byte. high ∷ low ∷ [] ≡ hex_digits byte) }
    ensures none { IfNone result ((byte : ℕ) → byte < 256 → high ∷ low ∷ [] ≢ hex_digits byte) }
{
    Some(digit(high)? * 16 + digit(low)?)
}

// BYTES go to the front of `out`; their count, unless the word is none or has too many. By index: tried with `iter_mut` and `zip`, after
// which a proof knows nothing of the elements.
pub fn bytes(word: &[u8], out: &mut [u8]) -> Option<usize>
    ensures fits { IfSome result (λ n. n ≤ length out.new) }
    ensures word { IfSome result (λ n. IsBytes word.now n) }
    ensures values { IfSome result (λ n. word.now ≡ bytes_word (take n out.new)) }
    ensures none { IfNone result ((values : List ℕ) → All (λ byte. byte < 256) values → word.now ≡ bytes_word values → length out.old < length values) }
{
    if matches!(word, b"-") {
        return Some(0);
    }
    if word.is_empty() || word.len() % 2 != 0 {
        return None;
    }
    let size = word.len() / 2;
    if out.len() < size {
        return None;
    }
    for at in 0..size {
        out[at] = pair(word[2 * at], word[2 * at + 1])?;
    }
    Some(size)
}
