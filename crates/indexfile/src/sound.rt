// Whether rows are sound, in a table or in a file.
ghost use Rattle.std.specs.Prelude.{◌≡◌, ◌+◌, ◌&&◌, List, nat_le, nat_lt};
ghost use Rattle.std.specs.Iterator.{AlwaysYields, IsFinite};
ghost use Rattle.indexfile.specs.declared.row.Row.{Row};
ghost use Rattle.indexfile.specs.Files.{sound_rows};

use crate::counts::Counts;
use crate::row::Row;

// The most rows of a file.
// No plainer shared with the limit of an index: index files need nothing of the rest.
pub(crate) const MOST: usize = 65_536;

// A row that is not empty, begins at the end of the one before it or later, and ends by the place.
fn follows(end: u64, row: Row, place: u32) -> bool
    ensures { result ≡ (nat_lt 0 row.length && (nat_le end row.place && nat_le (row.place + row.length) place)) }
{
    0 < row.length
        && end <= row.place as u64
        && row.place as u64 + row.length as u64 <= place as u64
}

// Each row follows the one before it, and the skipped cells and the rows make up the place.
pub(crate) fn sound<I: Iterator<Item = Row> + Drop>(rows: I, counts: Counts) -> bool
    requires can { I.can_next rows }
    requires ends { IsFinite (I.remaining rows) }
    ensures { (all : List Row) → AlwaysYields I.next_gives (λ x. x) rows all → result ≡ sound_rows counts.place counts.skipped all }
{
    let mut end = 0;
    let mut sum = 0;
    for row in rows {
        if !follows(end, row, counts.place) {
            return false;
        }
        end = row.place as u64 + row.length as u64;
        sum += row.length as u64;
    }
    counts.place as u64 == counts.skipped as u64 + sum
}

// Whether the rows of a table are sound.
pub(crate) fn is_sound(rows: &[Row], counts: Counts) -> bool
    ensures { result ≡ sound_rows counts.place counts.skipped rows.now }
{
    sound(rows.iter().copied(), counts)
}
