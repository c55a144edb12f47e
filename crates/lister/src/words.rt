// Words that name the pieces of a recording in a card image, and what is lost of it.
ghost use Rattle.std.specs.Prelude.{◌≡◌, ◌<◌, ◌≢◌, ℕ, [], length, slice_index, IfSome, IfNone, drop, if◌then◌else◌, Some, None};
ghost use Rattle.std.specs.Option.{option_map};
ghost use Rattle.lister.specs.Words.{with_digit, number_of, pair_on, worded};
ghost use Rattle.records.specs.Sentences.{begins};

use recording::extents::Extent;
use recording::stretches::Stretch;

#[derive(Clone, Copy)]
pub enum Word {
    Extent(Extent),
    Lost(Stretch),
}

// A number of at most 2³² - 1 with one more decimal digit.
fn with_digit(n: u32, digit: u8) -> Option<u32>
    ensures { result ≡ with_digit n digit }
{
    if !digit.is_ascii_digit() {
        return None;
    }
    n.checked_mul(10)?.checked_add(u32::from(digit - b'0'))
}

// The number that a text of decimal digits writes. Not the library's `parse`, which takes a sign too; and a `for`,
// since of a `try_fold` over the digits no proof closed.
fn number(text: &[u8]) -> Option<u32>
    ensures { result ≡ number_of text.now }
{
    if text.is_empty() {
        return None;
    }
    let mut n = 0;
    for digit in text {
        n = with_digit(n, *digit)?;
    }
    Some(n)
}

// Where the first colon stands. On bytes, and not by `split_once`: a word that is no text is a word that names nothing.
fn colon(text: &[u8]) -> Option<usize>
    ensures none { IfNone result ((k : ℕ) → k < length text.now → slice_index text.now k ≢ 58) }
    ensures some { IfSome result (λ i. (i < length text.now) × (slice_index text.now i ≡ 58) × ((k : ℕ) → k < i → slice_index text.now k ≢ 58)) }
{
    text.iter().position(|c| *c == b':')
}

// Two numbers with a colon between them.
fn pair(text: &[u8]) -> Option<(u32, u32)>
    ensures { result ≡ pair_on [] text.now }
{
    let at = colon(text)?;
    number(&text[..at]).zip(number(&text[at + 1..]))
}

// What stands behind a front.
fn behind<'a>(text: &'a [u8], front: &[u8]) -> Option<&'a [u8]>
    ensures value { option_map (λ s. s.now) result ≡ (if begins front.now text.now then Some (drop (length front.now) text.now) else None) }
{
    text.strip_prefix(front)
}

impl Word {
    // Reads `extent=PLACE:LENGTH` or `lost=FIRST:COUNT`.
    pub fn read(text: &[u8]) -> Option<Word>
        ensures { result ≡ worded text.now }
    {
        if let Some(rest) = behind(text, b"extent=") {
            let (place, length) = pair(rest)?;
            return Some(Word::Extent(Extent { place, length }));
        }
        let (first, count) = pair(behind(text, b"lost=")?)?;
        Some(Word::Lost(Stretch { first, count }))
    }
}
