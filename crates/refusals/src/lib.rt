// What a refusal tells: its number, and the place that it is about.
#![tactic(auto)]

ghost use Rattle.std.specs.Prelude.{◌≡◌, Some};
ghost use Rattle.refusals.specs.declared.Notice.{Notice};
ghost use Rattle.refusals.specs.Notices.{notice, nowhere, notice_text};

use std::fmt;

#[derive(Clone, Copy, Debug, PartialEq, Eq)]
pub struct Notice {
    pub number: u8,
    pub place: usize,
}

impl Notice {
    // A refusal about a place.
    pub fn at(number: u8, place: usize) -> Notice
        ensures { result ≡ notice number place }
    {
        Notice { number, place }
    }

    // A refusal that concerns no place in particular.
    // Place 0 and no Option: the promise gives every refusal a place.
    pub fn nowhere(number: u8) -> Notice
        ensures { result ≡ nowhere number }
    {
        Notice::at(number, 0)
    }
}

impl fmt::Display for Notice {
    ghost output = { λ x. Some (notice_text x) };

    fn fmt<W: fmt::Write>(&self, f: &mut fmt::Formatter<W>) -> fmt::Result {
        let number = self.number;
        let place = self.place;
        write!(f, "{number} {place}")
    }
}

// Every refusal has one definition, `told`, with a clause for each of its cases.
pub trait Refusal {
    ghost told: { Self → Notice };

    fn notice(&self) -> Notice
        ensures { result ≡ told self.now };

    fn number(&self) -> u8
        ensures { result ≡ (told self.now).number }
    {
        self.notice().number
    }

    fn place(&self) -> usize
        ensures { result ≡ (told self.now).place }
    {
        self.notice().place
    }
}
