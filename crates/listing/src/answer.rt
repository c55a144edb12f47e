// What is asked of an index, and what it answers.
ghost use Rattle.std.specs.Prelude.{◌≡◌};
ghost use Rattle.listing.specs.Visits.{unmade};
ghost use Rattle.listing.specs.Refusals.{scan_refusal, clear_refusal, fetch_refusal, settle_refusal, save_refusal, finding_told, finding, unwritten};

use bodies::fault::TupleFault;
use indexfile::refusal::WriteRefusal;
use layouts::settings::Counter;
use refusals::{Notice, Refusal};

// Why a scan stopped: at the end, all its tests made, or a record found and no row free.
#[derive(Clone, Copy, Debug, PartialEq, Eq)]
pub enum Stop {
    Ended,
    Spent,
    Full,
}

#[derive(Clone, Copy, Debug, PartialEq, Eq)]
pub struct Scanned {
    pub stop: Stop,
    pub tests: u32,
    pub added: u32,
}

// Each call has refusals of its own, so that no caller meets one that its call never gives.
#[derive(Clone, Copy, Debug, PartialEq, Eq)]
pub enum ScanRefusal {
    // The table is shorter than the rows held.
    ShortTable,
    // A budget is 1 to 65,536 tests.
    WrongBudget,
}

#[derive(Clone, Copy, Debug, PartialEq, Eq)]
pub enum ClearRefusal {
    // The table is shorter than the rows held.
    ShortTable,
    // The boundary lies past the end of the recording.
    PastEnd,
}

// Why a record is not handed out.
#[derive(Clone, Copy, Debug, PartialEq, Eq)]
pub enum FetchRefusal {
    // The table is shorter than the rows held.
    ShortTable,
    RowNotHeld,
    // The row is not that of the record that stands at its place.
    RowNotStanding,
    ShortBuffer,
}

// Why it is not settled whether a tuple has an overload counter.
#[derive(Clone, Copy, Debug, PartialEq, Eq)]
pub enum SettleRefusal {
    // The table is shorter than the rows held.
    ShortTable,
    RowNotHeld,
    // The row is not that of the record that stands at its place.
    RowNotStanding,
    // No settings govern the tuple.
    NoSettings,
}

// What is wrong with a row's tuple.
#[derive(Clone, Copy, Debug, PartialEq, Eq)]
pub struct Finding {
    pub row: u32,
    pub fault: TupleFault,
}

#[derive(Clone, Copy, Debug, PartialEq, Eq)]
// No Option: both cases are errors.
pub enum SaveRefusal {
    // The table is shorter than the rows held.
    ShortTable,
    Unwritten(WriteRefusal),
}

// A call: a scan with its budget, a clear with its boundary, a fetch, a settle or an inspect with its row, a save.
#[derive(Clone, Copy, Debug, PartialEq, Eq)]
pub enum Call {
    Scan(u32),
    Clear(u32),
    Fetch(u32),
    Settle(u32),
    Inspect(u32),
    Save,
}

// A clear answers the lowest place of a record that crosses the boundary, if one does; an inspect what is wrong, if anything.
#[derive(Clone, Copy, Debug)]
pub enum Answer {
    Scan(Result<Scanned, ScanRefusal>),
    Clear(Result<Option<u32>, ClearRefusal>),
    Fetch(Result<u32, FetchRefusal>),
    Settle(Result<Counter, SettleRefusal>),
    Inspect(Result<Option<Finding>, FetchRefusal>),
    Save(Result<u32, SaveRefusal>),
}

// A call on an index, and its answer once it was made.
#[derive(Clone, Copy, Debug)]
pub struct Visit {
    pub call: Call,
    pub answer: Option<Answer>,
}

impl Visit {
    // A call that is still to be made.
    pub fn new(call: Call) -> Visit
        ensures { result ≡ unmade call }
    {
        Visit { call, answer: None }
    }
}

impl Refusal for ScanRefusal {
    ghost told = { scan_refusal };

    fn notice(&self) -> Notice {
        match self {
            ScanRefusal::ShortTable => Notice::nowhere(25),
            ScanRefusal::WrongBudget => Notice::nowhere(1),
        }
    }
}

impl Refusal for ClearRefusal {
    ghost told = { clear_refusal };

    fn notice(&self) -> Notice {
        match self {
            ClearRefusal::ShortTable => Notice::nowhere(25),
            ClearRefusal::PastEnd => Notice::nowhere(2),
        }
    }
}

impl Refusal for FetchRefusal {
    ghost told = { fetch_refusal };

    fn notice(&self) -> Notice {
        match self {
            FetchRefusal::ShortTable | FetchRefusal::RowNotStanding => Notice::nowhere(25),
            FetchRefusal::RowNotHeld => Notice::nowhere(21),
            FetchRefusal::ShortBuffer => Notice::nowhere(4),
        }
    }
}

impl Refusal for SettleRefusal {
    ghost told = { settle_refusal };

    fn notice(&self) -> Notice {
        match self {
            SettleRefusal::ShortTable | SettleRefusal::RowNotStanding => Notice::nowhere(25),
            SettleRefusal::RowNotHeld => Notice::nowhere(21),
            SettleRefusal::NoSettings => Notice::nowhere(22),
        }
    }
}

impl Refusal for SaveRefusal {
    ghost told = { save_refusal };

    fn notice(&self) -> Notice {
        match self {
            SaveRefusal::ShortTable => Notice::nowhere(25),
            SaveRefusal::Unwritten(refusal) => refusal.notice(),
        }
    }
}

// A finding is told as the fault inside it.
impl Refusal for Finding {
    ghost told = { finding_told };

    fn notice(&self) -> Notice {
        self.fault.notice()
    }
}

// A rule of the project keeps these by hand: contracts speak of the error that `?` makes.
impl From<(u32, TupleFault)> for Finding {
    ghost from_gives = { λ x y. y ≡ finding x };

    fn from((row, fault): (u32, TupleFault)) -> Finding {
        Finding { row, fault }
    }
}

impl From<WriteRefusal> for SaveRefusal {
    ghost from_gives = { λ x y. y ≡ unwritten x };

    fn from(refusal: WriteRefusal) -> SaveRefusal {
        SaveRefusal::Unwritten(refusal)
    }
}
