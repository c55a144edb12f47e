// What a record kind is.
ghost use Rattle.std.specs.Prelude.{◌≡◌, ℕ, ◌≤◌, length, Some};
ghost use Rattle.records.specs.Lines.{record_text};
ghost use Rattle.records.specs.Records.{Meaning, Laws, Vacant};
ghost use Rattle.std.specs.Option.{option_map};

use recording::Store;
use std::fmt;

// The five numbers of a record.
#[derive(Clone, Copy, Debug, PartialEq, Eq)]
pub struct Record {
    pub length: u32,
    pub tag: u32,
    pub source_type: u16,
    pub source_id: u16,
    pub time: u32,
}

impl fmt::Display for Record {
    ghost output = { λ r. Some (record_text r) };

    fn fmt<W: fmt::Write>(&self, f: &mut fmt::Formatter<W>) -> fmt::Result {
        let Record {
            length,
            tag,
            source_type,
            source_id,
            time,
        } = *self;
        write!(f, "{length} {tag} {source_type} {source_id} {time}")
    }
}

// A record kind says where its records stand, and what each of them is.
pub trait RecordKind {
    // the cells of the longest record
    ghost longest: { ℕ };

    ghost stands: { Self → Meaning };

    ghost laws: { (k : Self) → Laws longest (stands k) };

    // A constant would be no plainer: each impl would give it twice, as a ghost member and as a value.
    fn longest(&self) -> u32
        ensures { result ≡ longest };

    // The length of the record that stands at the place.
    fn test<S: Store>(&self, store: &S, at: u32) -> Option<u32>
        ensures { result ≡ option_map (λ x. x.length) (stands self.now (S.Store.cells store.now) at) };

    // The record that stands at the place.
    fn record<S: Store>(&self, store: &S, at: u32) -> Option<Record>
        ensures { result ≡ stands self.now (S.Store.cells store.now) at };

    // How many places at the front of a run of bytes no record begins at, wherever the run stands. It may be
    // less than there are: 0 is always true.
    fn vacant(&self, run: &[u8]) -> usize
        ensures within { result ≤ length run.now }
        ensures none { Vacant (stands self.now) run.now result }
    {
        let _ = run;
        0
    }
}
