// Fields that are set.
ghost use Rattle.std.specs.Prelude.{◌≡◌, ◌+◌, ◌≤◌, length, OnOk};
ghost use Rattle.fields.specs.Fields.{means};
ghost use Rattle.layouts.specs.Letters.{size};
ghost use Rattle.fields.specs.Set.{bytes_for, set_at, put_of, set_of, FieldSet};

use crate::fault::FieldFault;
use crate::read::{Field, field_place};
use layouts::letters::Letter;

// Bytes over those at a place; all that is set goes through here.
fn put_run(s: &mut [u8], at: usize, run: &[u8])
    requires { at + length run.now ≤ length s.old }
    ensures { s.new ≡ set_at s.old at run.now }
{
    s[at..at + run.len()].copy_from_slice(run);
}

// A value written as its field's letter asks, where it can be.
fn put_value(s: &mut [u8], at: usize, letter: Letter, value: Field<'_>) -> Result<(), FieldFault>
    requires { at + size letter ≤ length s.old }
    ensures { (result, s.new) ≡ put_of s.old at (bytes_for letter (means value.entry)) }
{
    match (letter, value) {
        (Letter::D, Field::Number(n)) => put_run(s, at, &n.to_le_bytes()),
        (Letter::F | Letter::L, Field::Number(n)) => {
            put_run(s, at, &u32::try_from(n)?.to_le_bytes());
        }
        (Letter::W, Field::Number(n)) => put_run(s, at, &u16::try_from(n)?.to_le_bytes()),
        (Letter::S, Field::Signed(z)) => put_run(s, at, &i16::try_from(z)?.to_le_bytes()),
        (Letter::B, Field::Number(n)) => put_run(s, at, &[u8::try_from(n)?]),
        (Letter::R(n), Field::Run(run)) if run.len() == usize::from(n) => put_run(s, at, run),
        _ => return Err(FieldFault::NoField),
    }
    Ok(())
}

// Sets field n of a body; where it cannot be, the body stays as it was.
pub fn set_field(
    data_type: u32,
    body: &mut [u8],
    n: usize,
    value: Field<'_>,
) -> Result<(), FieldFault>
    ensures value { (result, body.new) ≡ set_of data_type body.old n (means value.entry) }
    ensures law { OnOk result (FieldSet data_type n (means value.entry) body.old body.new) }
{
    let (at, letter) = field_place(data_type, body, n)?;
    put_value(body, at, letter, value)
}
