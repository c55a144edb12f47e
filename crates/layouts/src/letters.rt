// The letters of members, and the fields of a row of letters.
ghost use Rattle.std.specs.Prelude.{◌≡◌, ◌≤◌, length};
ghost use Rattle.layouts.specs.Letters.{size, total, field_of};

// What a member is: a floating number of 64 or 32 bits, uint32, uint16, int16, a byte, or a run of so many bytes.
#[derive(Clone, Copy, Debug, PartialEq, Eq)]
pub enum Letter {
    D,
    F,
    L,
    W,
    S,
    B,
    R(u8),
}

impl Letter {
    pub fn size(self) -> usize
        ensures value { result ≡ size self }
        ensures bound { result ≤ 255 }
    {
        match self {
            Letter::D => 8,
            Letter::F | Letter::L => 4,
            Letter::W | Letter::S => 2,
            Letter::B => 1,
            Letter::R(n) => usize::from(n),
        }
    }
}

// How many bytes the members take together.
fn total(letters: &[Letter]) -> usize
    requires { length letters.now ≤ 100 }
    ensures { result ≡ total letters.now }
{
    letters.iter().map(|letter| letter.size()).sum()
}

// The letters of a body, few enough to add up their bytes.
#[derive(Clone, Copy)]
pub(crate) struct Letters<'a> {
    pub(crate) letters: &'a [Letter],
    ghost few: { length letters.now ≤ 100 },
}

impl Letters<'_> {
    // The place and the letter of a field.
    pub(crate) fn field(self, n: usize) -> Option<(usize, Letter)>
        ensures { result ≡ field_of self.entry.letters.now n }
    {
        let letter = *self.letters.get(n)?;
        Some((total(&self.letters[..n]), letter))
    }
}
