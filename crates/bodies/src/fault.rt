// What may be wrong with a body, and with a tuple.
ghost use Rattle.std.specs.Prelude.{◌≡◌};
ghost use Rattle.bodies.specs.Faults.{user_fault, body_fault, tuple_fault, beside, tuple_fault_of};
ghost use Rattle.bodies.specs.declared.fault.BodyFault.TheVariants.{Members as in_members, Packets as in_packets, User as in_user};
ghost use Rattle.bodies.specs.declared.fault.Wrong.TheVariants.{Body as in_body};

use layouts::fault::LayoutFault;
use packets::fault::PacketFault;
use refusals::{Notice, Refusal};

// What may be wrong with a user-defined body.
#[derive(Clone, Copy, Debug, PartialEq, Eq)]
pub enum UserFault {
    // A zero byte is missing; the place is the body's length.
    NoZero(usize),
    // A byte of the Format is none of the ten letters.
    Letter(usize),
}

// What may be wrong with a body, by what it is made of.
#[derive(Clone, Copy, Debug, PartialEq, Eq)]
pub enum BodyFault {
    Members(LayoutFault),
    Packets(PacketFault),
    User(UserFault),
}

#[derive(Clone, Copy, Debug, PartialEq, Eq)]
// No Option: both cases are errors.
pub enum Wrong {
    Body(BodyFault),
    // No settings tell whether the tuple has a counter.
    NoSettings,
}

// What is wrong with a tuple, and its type.
#[derive(Clone, Copy, Debug, PartialEq, Eq)]
pub struct TupleFault {
    pub data_type: u32,
    pub wrong: Wrong,
}

impl Refusal for UserFault {
    ghost told = { user_fault };

    fn notice(&self) -> Notice {
        match *self {
            UserFault::NoZero(at) | UserFault::Letter(at) => Notice::at(10, at),
        }
    }
}

impl Refusal for BodyFault {
    ghost told = { body_fault };

    fn notice(&self) -> Notice {
        match self {
            BodyFault::Members(fault) => fault.notice(),
            BodyFault::Packets(fault) => fault.notice(),
            BodyFault::User(fault) => fault.notice(),
        }
    }
}

impl Refusal for TupleFault {
    ghost told = { tuple_fault };

    fn notice(&self) -> Notice {
        match self.wrong {
            Wrong::Body(fault) => fault.notice(),
            Wrong::NoSettings => Notice::nowhere(22),
        }
    }
}

// A rule of the project keeps these by hand: contracts speak of the error that `?` makes.
impl From<LayoutFault> for BodyFault {
    ghost from_gives = { λ x y. y ≡ in_members x };

    fn from(wrong: LayoutFault) -> BodyFault {
        BodyFault::Members(wrong)
    }
}

impl From<PacketFault> for BodyFault {
    ghost from_gives = { λ x y. y ≡ in_packets x };

    fn from(wrong: PacketFault) -> BodyFault {
        BodyFault::Packets(wrong)
    }
}

impl From<UserFault> for BodyFault {
    ghost from_gives = { λ x y. y ≡ in_user x };

    fn from(wrong: UserFault) -> BodyFault {
        BodyFault::User(wrong)
    }
}

impl From<BodyFault> for Wrong {
    ghost from_gives = { λ x y. y ≡ in_body x };

    fn from(wrong: BodyFault) -> Wrong {
        Wrong::Body(wrong)
    }
}

impl From<(u32, Wrong)> for TupleFault {
    ghost from_gives = { λ x y. y ≡ tuple_fault_of x };

    fn from((data_type, wrong): (u32, Wrong)) -> TupleFault {
        TupleFault { data_type, wrong }
    }
}

// The same result, with a value beside the error that it may be.
pub fn beside<K: Drop, T, E>(k: K, res: Result<T, E>) -> Result<T, (K, E)>
    ensures { result ≡ beside k res }
{
    res.map_err(|e| (k, e))
}
