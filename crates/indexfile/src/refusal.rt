// Why an index file is not written or not read.
ghost use Rattle.indexfile.specs.Refusals.{write_refusal, read_refusal};

use refusals::{Notice, Refusal};

#[derive(Clone, Copy, Debug, PartialEq, Eq)]
pub enum WriteRefusal {
    // The rows are too many, are out of order, or leave out cells that were not skipped.
    UnsoundRows,
    // The buffer is shorter than the file.
    ShortBuffer,
}

#[derive(Clone, Copy, Debug, PartialEq, Eq)]
pub enum ReadRefusal {
    // The bytes are no sound index file.
    Unsound,
    // The file has no row of that number.
    RowNotHeld,
}

impl Refusal for WriteRefusal {
    ghost told = { write_refusal };

    fn notice(&self) -> Notice {
        match self {
            WriteRefusal::UnsoundRows => Notice::nowhere(25),
            WriteRefusal::ShortBuffer => Notice::nowhere(4),
        }
    }
}

impl Refusal for ReadRefusal {
    ghost told = { read_refusal };

    fn notice(&self) -> Notice {
        match self {
            ReadRefusal::Unsound => Notice::nowhere(12),
            ReadRefusal::RowNotHeld => Notice::nowhere(21),
        }
    }
}
