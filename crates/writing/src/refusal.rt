// Why a tuple is not written, or not taken apart.
ghost use Rattle.std.specs.Prelude.{◌≡◌};
ghost use Rattle.writing.specs.declared.refusal.PutError.TheVariants.{Refused, Memory};
ghost use Rattle.writing.specs.Refusals.{put_refusal, not_one_tuple};

use refusals::{Notice, Refusal};
use std::alloc::AllocError;

#[derive(Clone, Copy, Debug, PartialEq, Eq)]
pub enum PutRefusal {
    // The body has more than 65,535 bytes.
    LongBody,
    // The output would have more than 2,147,483,647 bytes.
    Full,
}

// A put that is refused, or that finds no memory: the second has no number.
#[derive(Clone, Copy, Debug, PartialEq, Eq)]
// No Option: both cases are errors.
pub enum PutError {
    Refused(PutRefusal),
    Memory,
}

// The bytes are not one tuple and nothing else.
#[derive(Clone, Copy, Debug, PartialEq, Eq)]
pub struct NotOneTuple;

// A rule of the project keeps these by hand: contracts speak of the error that `?` makes.
impl From<AllocError> for PutError {
    ghost from_gives = { λ _ y. y ≡ Memory };

    fn from(_e: AllocError) -> PutError {
        PutError::Memory
    }
}

impl From<PutRefusal> for PutError {
    ghost from_gives = { λ e y. y ≡ Refused e };

    fn from(e: PutRefusal) -> PutError {
        PutError::Refused(e)
    }
}

impl Refusal for PutRefusal {
    ghost told = { put_refusal };

    fn notice(&self) -> Notice {
        match self {
            PutRefusal::LongBody => Notice::nowhere(3),
            PutRefusal::Full => Notice::nowhere(24),
        }
    }
}

impl Refusal for NotOneTuple {
    ghost told = { not_one_tuple };

    fn notice(&self) -> Notice {
        Notice::nowhere(15)
    }
}
