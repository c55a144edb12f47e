// The bytes at a place of a store.
ghost use Rattle.std.specs.Prelude.{◌≡◌};
ghost use Rattle.records.specs.Grammars.{bytes_from, first, first_two};

use recording::{Cell, Store};

pub(crate) fn byte<S: Store>(store: &S, at: u32) -> Option<u8>
    ensures { result ≡ first (bytes_from (S.Store.cells store.now) at) }
{
    store.cell(at).ok().and_then(Cell::byte)
}

// Two bytes, the lower first.
pub(crate) fn pair<S: Store>(store: &S, at: u32) -> Option<u16>
    ensures { result ≡ first_two (bytes_from (S.Store.cells store.now) at) }
{
    let low = byte(store, at)?;
    let high = byte(store, at + 1)?;
    Some(u16::from_le_bytes([low, high]))
}
