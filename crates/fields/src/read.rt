// Fields of fixed bodies and of settings.
ghost use Rattle.std.specs.Prelude.{◌≡◌, ◌+◌, ◌≤◌, length, IfOk};
ghost use Rattle.std.specs.Result.{result_map_both};
ghost use Rattle.fields.specs.Fields.{means, value_at, place_of, value_of};
ghost use Rattle.layouts.specs.Letters.{size};

use crate::fault::FieldFault;
use byteorder::{ByteOrder, LittleEndian};
use layouts::letters::Letter;
use layouts::locate::locate;

// What a field says; a run is part of the body.
#[derive(Clone, Copy)]
pub enum Field<'a> {
    Number(u64),
    Signed(i64),
    Run(&'a [u8]),
}

fn field_at(body: &[u8], at: usize, letter: Letter) -> Field<'_>
    requires { at + size letter ≤ length body.now }
    ensures { means result ≡ value_at body.now (at, letter) }
{
    let from = &body[at..];
    match letter {
        Letter::D => Field::Number(LittleEndian::read_u64(from)),
        Letter::F | Letter::L => Field::Number(u64::from(LittleEndian::read_u32(from))),
        Letter::W => Field::Number(u64::from(LittleEndian::read_u16(from))),
        Letter::S => Field::Signed(i64::from(LittleEndian::read_i16(from))),
        Letter::B => Field::Number(u64::from(from[0])),
        Letter::R(n) => Field::Run(&from[..usize::from(n)]),
    }
}

// Where a field begins, and its letter; only a sound body has fields.
pub fn field_place(data_type: u32, body: &[u8], n: usize) -> Result<(usize, Letter), FieldFault>
    ensures value { result ≡ place_of data_type body.now n }
    ensures within { IfOk result (λ p. p.0 + size p.1 ≤ length body.now) }
{
    locate(data_type, body, n)?.ok_or(FieldFault::NoField)
}

// What field n of a body says.
pub fn read_field(data_type: u32, body: &[u8], n: usize) -> Result<Field<'_>, FieldFault>
    ensures { result_map_both means (λ e. e) result ≡ value_of data_type body.now n }
{
    let (at, letter) = field_place(data_type, body, n)?;
    Ok(field_at(body, at, letter))
}
