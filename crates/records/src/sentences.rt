// Sentences of NMEA 0183: `$`, five characters, nothing or a comma and a text, `*`, two digits, CR, LF.
ghost use Rattle.std.specs.Prelude.{◌≡◌, ◌<◌, ◌&&◌, true, [], ◌∷◌, take, None, IfNone, IfSome};
ghost use Rattle.records.specs.Grammars.{bytes_from, meaning};
ghost use Rattle.records.specs.Sentences.{name_char, text_char, is_text, hex_digit, closing, begins};
ghost use Rattle.records.specs.Sentences.{tail_of, sentence};
ghost use Rattle.records.specs.Copying.{may_stand, may_close, Begun, Starred};
ghost use Rattle.records.specs.SentenceLaws.{sentence_laws};

use crate::bytes::byte;
use crate::kind::{Record, RecordKind};
use crate::text::text_at_front;
use memchr::memchr;
use recording::Store;

// The most bytes of a sentence.
const LONGEST: usize = 82;

// How many bytes are searched for the end of a text: some vectors of bytes, and no fewer than a text can have.
const NEAR: usize = 80;

// The record kind of NMEA 0183 logs.
#[derive(Clone, Copy, Debug)]
pub struct Sentences;

fn is_name(b: u8) -> bool
    ensures { result ≡ name_char b }
{
    matches!(b, b'A'..=b'Z' | b'0'..=b'9')
}

pub(crate) fn is_text_char(b: u8) -> bool
    ensures { result ≡ text_char b }
{
    matches!(b, 0x20..=0x7e) && b != b'$' && b != b'!' && b != b'*'
}

// No plainer by char::from_digit, whose letters are lower case.
fn digit(n: u8) -> u8
    requires { n < 16 }
    ensures { result ≡ hex_digit n }
{
    if n < 10 { n + b'0' } else { n - 10 + b'A' }
}

// Whether the digits of the sum, CR and LF come first.
fn closes(rest: &[u8], sum: u8) -> bool
    ensures { result ≡ begins (closing sum) rest.now }
{
    let [high, low, cr, lf, ..] = rest else {
        return false;
    };
    *high == digit(sum / 16) && *low == digit(sum % 16) && *cr == b'\r' && *lf == b'\n'
}

// Whether a comma comes first, or nothing.
fn comma_first(text: &[u8]) -> bool
    ensures { result ≡ is_text (take 1 text.now) }
{
    text.first().is_none_or(|b| *b == b',')
}

// A text that a comma may open, and what closes the sentence: the length of the whole sentence.
fn text_tail(rest: &[u8], name_sum: u8) -> Option<u32>
    requires { is_text (take 1 rest.now) ≡ true }
    ensures { result ≡ tail_of name_sum rest.now }
{
    let (n, sum) = text_at_front(&rest[..rest.len().min(NEAR)], name_sum);
    if n > 71 || n >= rest.len() || rest[n] != b'*' {
        return None;
    }
    closes(&rest[n + 1..], sum).then_some(n as u32 + 11)
}

// What stands after a sentence's five characters, whose sum is given: the length of the whole sentence.
// Mostly the first byte decides, and no text is read.
#[inline(never)]
fn tail_length(rest: &[u8], name_sum: u8) -> Option<u32>
    ensures { result ≡ tail_of name_sum rest.now }
{
    match rest {
        [b'*', after @ ..] => closes(after, name_sum).then_some(11),
        _ if comma_first(rest) => text_tail(rest, name_sum),
        _ => None,
    }
}

// Whether all five may stand in an address.
fn is_address(a: u8, b: u8, c: u8, d: u8, e: u8) -> bool
    ensures { result ≡ (name_char a && (name_char b && (name_char c && (name_char d && name_char e)))) }
{
    is_name(a) && is_name(b) && is_name(c) && is_name(d) && is_name(e)
}

// The sentence at the front of the bytes. The tag names the last three of the five characters.
// Out of line, so that a place that begins with no `$` costs little.
#[inline(never)]
fn front_sentence(bytes: &[u8]) -> Option<Record>
    ensures { result ≡ sentence bytes.now }
{
    let [s, a, b, c, d, e, rest @ ..] = bytes else {
        return None;
    };
    if *s != b'$' || !is_address(*a, *b, *c, *d, *e) {
        return None;
    }
    let length = tail_length(rest, *a ^ *b ^ *c ^ *d ^ *e)?;
    Some(Record {
        length,
        // from_be_bytes of four would be no plainer: there are three
        tag: *c as u32 * 65536 + (*d as u32 * 256 + *e as u32),
        source_type: 0,
        source_id: 0,
        time: 0,
    })
}

// Whether a byte may stand at a place of a sentence, ahead of its `*`.
fn may_stand(i: usize, b: u8) -> bool
    ensures { result ≡ may_stand i b }
{
    match (i, b) {
        (0, b'$') | (6, b',') => true,
        (1..=5, _) => is_name(b),
        (7.., _) => is_text_char(b),
        _ => false,
    }
}

// Whether a byte may stand so many places behind the `*`; no digit comes before 0.
fn may_close(k: usize, b: u8) -> bool
    ensures { result ≡ may_close k b }
{
    match k {
        0..=2 => b >= b'0',
        3 => b == b'\r',
        _ => b == b'\n',
    }
}

// The character of an address behind a `$`, if both come first: mostly no more is read of a place.
fn begun<S: Store>(store: &S, at: u32) -> Option<u8>
    ensures some { IfSome result (λ b. Begun (bytes_from (S.Store.cells store.now) at) b) }
    ensures none { IfNone result (sentence (bytes_from (S.Store.cells store.now) at) ≡ None) }
{
    if byte(store, at) != Some(b'$') {
        return None;
    }
    let b = byte(store, at + 1)?;
    is_name(b).then_some(b)
}

// Copies the bytes behind those two, up to the first `*`: where that stands, if a sentence may begin so.
// Looks at no cell behind one that rules that out.
fn front<S: Store>(store: &S, at: u32, b: u8, bytes: &mut [u8; LONGEST]) -> Option<usize>
    requires begun { Begun (bytes_from (S.Store.cells store.now) at) b }
    requires copied { take 2 bytes.old ≡ 36 ∷ b ∷ [] }
    ensures none { IfNone result (sentence (bytes_from (S.Store.cells store.now) at) ≡ None) }
    ensures some { IfSome result (λ n. Starred (bytes_from (S.Store.cells store.now) at) bytes.new n) }
{
    // a range, since the place in the store counts with the place in the array: a chain would be no plainer
    for i in 2..78 {
        let b = byte(store, at + i as u32)?;
        bytes[i] = b;
        if b == b'*' && i > 5 {
            return Some(i);
        }
        if !may_stand(i, b) {
            return None;
        }
    }
    None
}

// The sentence at a `$` and a character of which the store has too few bytes at hand.
#[cold]
fn copied_sentence<S: Store>(store: &S, at: u32, b: u8) -> Option<Record>
    requires { Begun (bytes_from (S.Store.cells store.now) at) b }
    ensures { result ≡ meaning sentence (S.Store.cells store.now) at }
{
    // on the stack, since nothing here allocates
    let mut bytes = [b'$'; LONGEST];
    bytes[1] = b;
    let star = front(store, at, b, &mut bytes)?;
    // a range, as in `front`
    for k in 1..5 {
        let b = byte(store, at + (star + k) as u32)?;
        if !may_close(k, b) {
            return None;
        }
        bytes[star + k] = b;
    }
    front_sentence(&bytes[..star + 5])
}

// The sentence at a place: told by the bytes that the store has at hand, or by a copy of them.
fn sentence_at<S: Store>(store: &S, at: u32) -> Option<Record>
    ensures { result ≡ meaning sentence (S.Store.cells store.now) at }
{
    let b = begun(store, at)?;
    let run = store.run(at);
    if run.len() < LONGEST {
        copied_sentence(store, at, b)
    } else {
        front_sentence(run)
    }
}

impl RecordKind for Sentences {
    ghost longest = { 82 };

    ghost stands = { λ _. meaning sentence };

    ghost laws = { λ _. sentence_laws };

    fn longest(&self) -> u32 {
        82
    }

    fn test<S: Store>(&self, store: &S, at: u32) -> Option<u32> {
        self.record(store, at).map(|x| x.length)
    }

    fn record<S: Store>(&self, store: &S, at: u32) -> Option<Record> {
        sentence_at(store, at)
    }

    // No sentence begins where no `$` stands.
    fn vacant(&self, run: &[u8]) -> usize {
        if run.first() == Some(&b'$') {
            return 0;
        }
        memchr(b'$', run).unwrap_or(run.len())
    }
}
