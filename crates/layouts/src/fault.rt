// What may be wrong with a body of members.
ghost use Rattle.layouts.specs.Faults.{layout_fault};

use refusals::{Notice, Refusal};

#[derive(Clone, Copy, Debug, PartialEq, Eq)]
pub enum LayoutFault {
    // The type has no layout of members.
    NoLayout,
    // The body is not as long as its layout.
    Length,
    // Version is 0 or over 11.
    Version,
    // HeadControllerVersion is not the Version.
    HeadControllerVersion(usize),
    // HidType contradicts the length.
    HidType(usize),
}

impl Refusal for LayoutFault {
    ghost told = { layout_fault };

    fn notice(&self) -> Notice {
        match *self {
            LayoutFault::NoLayout => Notice::nowhere(5),
            LayoutFault::Length => Notice::nowhere(6),
            LayoutFault::Version => Notice::at(7, 13),
            LayoutFault::HeadControllerVersion(at) | LayoutFault::HidType(at) => Notice::at(8, at),
        }
    }
}
