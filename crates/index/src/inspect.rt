// Whether a row's tuple is sound.
ghost use Rattle.std.specs.Prelude.{◌≡◌, ◌-◌, ◌≤◌, length, take, drop, Some};
ghost use Rattle.bodies.specs.Judge.{tuple_of, lifted};
ghost use Rattle.listing.specs.Refusals.{finding};
ghost use Rattle.listing.specs.Settling.{inspecting};
ghost use Rattle.index.specs.Indexes.{cells_of, meaning_of, progress};

use crate::Index;
use bodies::fault::{TupleFault, Wrong};
use bodies::judge::judge_tuple;
use indexfile::row::Row;
use layouts::settings::Counter;
use listing::answer::{FetchRefusal, Finding};
use recording::Store;
use records::kind::RecordKind;

// The body of a tuple of n bytes at the buffer's front.
fn body_in(buffer: &[u8], n: u32) -> &[u8]
    requires { n ≤ length buffer.now }
    ensures { result.now ≡ take (n - 16) (drop 14 buffer.now) }
{
    if n < 16 {
        &[]
    } else {
        &buffer[14..n as usize - 2]
    }
}

// A tuple's fault becomes a finding of its row.
fn judge_row(row: u32, tag: u32, counter: Counter, body: &[u8]) -> Result<(), Finding>
    ensures { result ≡ lifted (λ f. finding (row, f)) (tuple_of tag (Some counter) body.now) }
{
    judge_tuple(tag, Some(counter), body).map_err(|fault| (row, fault))?;
    Ok(())
}

impl<S: Store + Drop, K: RecordKind + Drop> Index<S, K> {
    // Fetches a row's tuple into the buffer, settles it and judges its body: what is wrong, if anything.
    pub fn inspect(
        &self,
        table: &[Row],
        row: u32,
        buffer: &mut [u8],
    ) -> Result<Option<Finding>, FetchRefusal>
        ensures { (result, buffer.new) ≡ inspecting (meaning_of K.RecordKind self.now) (cells_of S.Store self.now) row buffer.old (progress self.now table.now) }
    {
        // A rule of the project keeps this a chain of let .. else.
        let length = self.fetch(table, row, buffer)?;
        let y = table[row as usize];
        let Some(counter) = self.settled(&table[..row as usize], y) else {
            let fault = TupleFault::from((y.tag, Wrong::NoSettings));
            return Ok(Some(Finding::from((row, fault))));
        };
        let Err(finding) = judge_row(row, y.tag, counter, body_in(buffer, length)) else {
            return Ok(None);
        };
        Ok(Some(finding))
    }
}
