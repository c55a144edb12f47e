// What the refusals of a store tell.
ghost use Rattle.recording.specs.Refusals.{past_end};

use crate::PastEnd;
use refusals::{Notice, Refusal};

impl Refusal for PastEnd {
    ghost told = { past_end };

    fn notice(&self) -> Notice {
        Notice::nowhere(2)
    }
}
