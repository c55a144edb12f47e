// What may be wrong with a call on a field.
ghost use Rattle.std.specs.Prelude.{◌≡◌};
ghost use Rattle.fields.specs.Faults.{field_fault};
ghost use Rattle.fields.specs.declared.fault.FieldFault.TheVariants.{Body as in_body, NoField as no_field};

use layouts::fault::LayoutFault;
use refusals::{Notice, Refusal};
use std::num::TryFromIntError;

#[derive(Clone, Copy, Debug, PartialEq, Eq)]
// No Option: both cases are errors.
pub enum FieldFault {
    // The body has no layout of members, or does not keep to it.
    Body(LayoutFault),
    // There is no such field, or it cannot hold the value.
    NoField,
}

impl Refusal for FieldFault {
    ghost told = { field_fault };

    fn notice(&self) -> Notice {
        match self {
            FieldFault::Body(fault) => fault.notice(),
            FieldFault::NoField => Notice::nowhere(13),
        }
    }
}

// A rule of the project keeps this by hand: contracts speak of the error that `?` makes.
impl From<LayoutFault> for FieldFault {
    ghost from_gives = { λ x y. y ≡ in_body x };

    fn from(wrong: LayoutFault) -> FieldFault {
        FieldFault::Body(wrong)
    }
}

// A number that a field cannot hold.
impl From<TryFromIntError> for FieldFault {
    ghost from_gives = { λ _ y. y ≡ no_field };

    fn from(_wrong: TryFromIntError) -> Self {
        Self::NoField
    }
}
