// The settings that govern a row's tuple.
ghost use Rattle.std.specs.Prelude.{◌≡◌, ◌+◌, ◌≤◌, length, if◌then◌else◌, None};
ghost use Rattle.listing.specs.Settling.{body, counter_in, is_settings, settled as settled_by, settling};
ghost use Rattle.index.specs.Indexes.{cells_of, meaning_of, progress};

use crate::Index;
use bodies::judge::needs_settings;
use indexfile::row::Row;
use layouts::kind::BodyKind;
use layouts::settings::{Counter, read_settings};
use listing::answer::SettleRefusal;
use recording::Store;
use records::kind::RecordKind;

// The longest body of settings.
const LONGEST: usize = 222;

fn counter_in(body: &[u8]) -> Option<Counter>
    ensures { result ≡ counter_in body.now }
{
    read_settings(body).ok().map(|settings| settings.counter)
}

impl<S: Store + Drop, K: RecordKind + Drop> Index<S, K> {
    // What the body of a standing row says of counters, if it is sound settings.
    fn counter_at(&self, x: Row) -> Option<Counter>
        requires { x.place + x.length ≤ length (cells_of S.Store self.now) }
        ensures { result ≡ counter_in (body (cells_of S.Store self.now) x) }
    {
        let n = x.length.checked_sub(16)?;
        // on the stack, since nothing here allocates
        let mut buffer = [0u8; LONGEST];
        let body = buffer.get_mut(..n as usize)?;
        self.copy(x.place + 14, body);
        counter_in(body)
    }

    // What x says of counters, if it is settings for y. The store is read last.
    fn counter_by(&self, x: Row, y: Row) -> Option<Counter>
        ensures { result ≡ (if is_settings (meaning_of K.RecordKind self.now) (cells_of S.Store self.now) y x then counter_in (body (cells_of S.Store self.now) x) else None) }
    {
        let same_head = (x.source_type, x.source_id) == (y.source_type, y.source_id);
        let is_settings = matches!(BodyKind::from(x.tag), BodyKind::Settings);
        if is_settings && same_head && self.is_standing(x) {
            self.counter_at(x)
        } else {
            None
        }
    }

    // Whether the tuple of a row is settled with a counter, by the rows before it, if it is settled.
    pub(crate) fn settled(&self, earlier: &[Row], y: Row) -> Option<Counter>
        ensures { result ≡ settled_by (meaning_of K.RecordKind self.now) (cells_of S.Store self.now) earlier.now y }
    {
        if !needs_settings(y.tag) {
            return Some(Counter::Without);
        }
        earlier.iter().rev().find_map(|x| self.counter_by(*x, y))
    }

    // Whether a row's tuple has an overload counter, by the settings that govern it.
    pub fn settle(&self, table: &[Row], row: u32) -> Result<Counter, SettleRefusal>
        ensures { result ≡ settling (meaning_of K.RecordKind self.now) (cells_of S.Store self.now) row (progress self.now table.now) }
    {
        let held = self.held(table).ok_or(SettleRefusal::ShortTable)?;
        let y = *held.get(row as usize).ok_or(SettleRefusal::RowNotHeld)?;
        if !self.is_standing(y) {
            return Err(SettleRefusal::RowNotStanding);
        }
        self.settled(&held[..row as usize], y)
            .ok_or(SettleRefusal::NoSettings)
    }
}
