// Tuples: a header of 14 bytes, a body, and a footer that repeats the body's size.
ghost use Rattle.std.specs.Prelude.{◌≡◌, ◌<◌, true, is_some};
ghost use Rattle.std.specs.Option.{option_map};
ghost use Rattle.records.specs.Grammars.{bytes_from, meaning};
ghost use Rattle.records.specs.Tuples.{sync_mark, tuple};
ghost use Rattle.records.specs.TupleLaws.{tuple_laws};

use crate::bytes::{byte, pair};
use crate::kind::{Record, RecordKind};
use crate::search::Pair;
use recording::Store;

// The record kind of SMB recordings.
#[derive(Clone, Copy, Debug)]
pub struct Tuples;

// The two bytes that begin a tuple.
const SYNC: Pair = Pair {
    first: 0x00,
    second: 0x80,
};

const HEADER: u32 = 14;

// The header and the footer.
const FRAME: u32 = 16;

// Whether the two bytes that begin a tuple stand at the place.
// That the place is within is said of a true answer alone: a type with the bound would be no plainer.
fn synced<S: Store>(store: &S, at: u32) -> bool
    ensures is { result ≡ sync_mark (bytes_from (S.Store.cells store.now) at) }
    ensures within { result ≡ true → at < 2147483647 }
{
    byte(store, at) == Some(0x00) && byte(store, at + 1) == Some(0x80)
}

// The length of the tuple that stands at the place. The footer is tried before the body.
fn tuple_length<S: Store>(store: &S, at: u32) -> Option<u32>
    ensures is { result ≡ option_map (λ x. x.length) (meaning tuple (S.Store.cells store.now) at) }
    ensures within { is_some result ≡ true → at < 2147483647 }
{
    if !synced(store, at) {
        return None;
    }
    let size = pair(store, at + 12)?;
    let again = pair(store, at + (size as u32 + HEADER))?;
    let length = size as u32 + FRAME;
    (again == size && store.whole(at, length)).then_some(length)
}

// A loop over the five numbers would be no plainer: each has a name of its own.
fn tuple_at<S: Store>(store: &S, at: u32) -> Option<Record>
    ensures { result ≡ meaning tuple (S.Store.cells store.now) at }
{
    let length = tuple_length(store, at)?;
    let source_type = pair(store, at + 2)?;
    let source_id = pair(store, at + 4)?;
    let data_type = pair(store, at + 6)?;
    let low_time = pair(store, at + 8)?;
    let high_time = pair(store, at + 10)?;
    Some(Record {
        length,
        tag: u32::from(data_type),
        source_type,
        source_id,
        time: u32::from(high_time) << 16 | u32::from(low_time),
    })
}

impl RecordKind for Tuples {
    ghost longest = { 65551 };

    ghost stands = { λ _. meaning tuple };

    ghost laws = { λ _. tuple_laws };

    // The longest body has 65,535 bytes.
    fn longest(&self) -> u32 {
        65_551
    }

    fn test<S: Store>(&self, store: &S, at: u32) -> Option<u32> {
        tuple_length(store, at)
    }

    fn record<S: Store>(&self, store: &S, at: u32) -> Option<Record> {
        tuple_at(store, at)
    }

    // No tuple begins where the bytes of Sync do not stand.
    fn vacant(&self, run: &[u8]) -> usize {
        SYNC.missing(run)
    }
}
