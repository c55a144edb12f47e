// Lists a short recording, and writes its rows as lines of text.
#![tactic(auto)]

ghost use Rattle.std.specs.Prelude.{◌≡◌, ◌≤◌, length, IfOk, vec_len, string_bytes};
ghost use Rattle.lister.specs.declared.ListError.TheVariants.{Memory};
ghost use Rattle.lister.specs.Listed.{Ends, Lists};
ghost use Rattle.recording.specs.Cells.{plain};
ghost use Rattle.listing.specs.Progress.{at};
ghost use Rattle.indexfile.specs.Lines.{row_text};
ghost use Rattle.lister.specs.Lines.{end_text, refusal_text};

use index::Index;
use indexfile::counts::Counts;
use indexfile::row::Row;
use listing::answer::{Call, Visit};
use recording::Store;
use recording::plain::Plain;
use records::kind::RecordKind;
use refusals::Refusal;
use std::alloc::{AllocError, Global};

pub mod card;
pub mod print;
pub mod words;

// The most cells that are listed.
pub const MOST: usize = 32_768;

// A recording read to its end: its rows, and how far an index came.
#[derive(Drop)]
pub struct Listed {
    pub rows: Vec<Row>,
    pub counts: Counts,
}

#[derive(Drop)]
pub enum ListError {
    // There are more cells than are listed.
    TooLong,
    Memory,
}

// By hand, since contracts speak of the error that `?` makes.
impl From<AllocError> for ListError {
    ghost from_gives = { λ _ y. y ≡ Memory };

    fn from(_e: AllocError) -> ListError {
        ListError::Memory
    }
}

fn blank_table(heap: Global, rows: usize) -> Result<Vec<Row>, AllocError>
    ensures { IfOk result (λ v. vec_len v ≡ rows) }
{
    vec![in heap; Row::default(); rows]
}

// Reads a recording to its end: a table with a row for each cell is never full, and one scan suffices.
fn read_whole<S: Store + Drop, K: RecordKind + Drop>(store: S, kind: K, table: &mut [Row]) -> Counts
    requires { (length (S.Store.cells store) ≤ 32768) × (length table.old ≡ length (S.Store.cells store)) }
    ensures { Ends (K.RecordKind.stands kind) (S.Store.cells store) (at result.place result.skipped result.rows table.new) }
{
    let mut index = Index::open(store, kind);
    let mut visits = [Visit::new(Call::Scan(index::scan::MOST))];
    index.run(table, &mut [], &mut visits);
    index.counts()
}

// Every row of the recording that a store holds.
pub fn list_store<S: Store + Drop, K: RecordKind + Drop>(
    heap: Global,
    store: S,
    kind: K,
) -> Result<Listed, ListError>
    ensures { Lists (K.RecordKind.stands kind) (S.Store.cells store) result }
{
    let cells = store.len() as usize;
    if cells > MOST {
        return Err(ListError::TooLong);
    }
    let mut table = blank_table(heap, cells)?;
    let counts = read_whole(store, kind, &mut table);
    table.truncate(counts.rows as usize);
    Ok(Listed {
        rows: table,
        counts,
    })
}

// Every row of the recording that the bytes are.
pub fn list<K: RecordKind + Drop>(heap: Global, kind: K, bytes: &[u8]) -> Result<Listed, ListError>
    ensures { Lists (K.RecordKind.stands kind) (plain bytes.now) result }
{
    list_store(heap, Plain::new(bytes), kind)
}

// A row's six members.
pub fn row_line(heap: Global, row: Row) -> Result<String, AllocError>
    ensures { IfOk result (λ s. string_bytes s ≡ row_text row) }
{
    row.to_string(heap)
}

// The line that closes a listing. No Display: the words are those of this program's listing, not of the counts.
pub fn end_line(heap: Global, counts: Counts) -> Result<String, AllocError>
    ensures { IfOk result (λ s. string_bytes s ≡ end_text counts) }
{
    let Counts {
        rows,
        place,
        skipped,
    } = counts;
    format!(in heap; "end {place} skipped {skipped} rows {rows}")
}

// The line of a refusal.
pub fn refusal_line<R: Refusal>(heap: Global, refusal: &R) -> Result<String, AllocError>
    ensures { IfOk result (λ s. string_bytes s ≡ refusal_text (R.Refusal.told refusal.now)) }
{
    let notice = refusal.notice();
    format!(in heap; "refused {notice}")
}
