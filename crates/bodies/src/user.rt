// User-defined bodies, type 11: Name and Format, each up to a zero byte, and Data.
ghost use Rattle.std.specs.Prelude.{◌≡◌, ◌+◌, ◌<◌, ◌≤◌, length, IfSome};
ghost use Rattle.layouts.specs.Checks.{sound};
ghost use Rattle.bodies.specs.User.{is_letter, zero_at, first_wrong, cut_of, three_of, held_in, user_of};
ghost use Rattle.std.specs.Option.{option_map};
ghost use Rattle.std.specs.Result.{result_map_both};

use crate::fault::UserFault;

// Name, Format and Data, without the zero bytes between them.
#[derive(Clone, Copy)]
pub struct UserParts<'a> {
    pub name: &'a [u8],
    pub format: &'a [u8],
    pub data: &'a [u8],
}

// The ten letters of a Format; a rule of the project keeps this a match on ten literals.
fn is_letter(c: char) -> bool
    ensures { result ≡ is_letter c }
{
    match c {
        'A' | 'B' | 'F' | 'I' | 'L' | 'E' | 'H' | 'N' | 'D' | 'S' => true,
        _ => false,
    }
}

// Where the first byte stands that is no letter; a rule of the project keeps this a loop with an index.
fn first_wrong(format: &[u8]) -> Option<usize>
    ensures value { result ≡ first_wrong format.now }
    ensures within { IfSome result (λ i. i < length format.now) }
{
    for (i, b) in format.iter().enumerate() {
        if !is_letter(char::from(*b)) {
            return Some(i);
        }
    }
    None
}

// Where the first zero byte stands.
fn zero_at(s: &[u8]) -> Option<usize>
    ensures value { result ≡ zero_at s.now }
    ensures within { IfSome result (λ i. i < length s.now) }
{
    s.iter().position(|b| *b == 0)
}

// What stands before the first zero byte, and what stands past it.
fn cut(s: &[u8]) -> Option<(&[u8], &[u8])>
    ensures value { option_map (λ p. (p.0.now, p.1.now)) result ≡ cut_of s.now }
    ensures sizes { IfSome result (λ p. length p.0.now + 1 + length p.1.now ≡ length s.now) }
{
    let i = zero_at(s)?;
    Some((&s[0..i], &s[i + 1..]))
}

fn split(body: &[u8]) -> Option<UserParts<'_>>
    ensures value { option_map held_in result ≡ three_of body.now }
    ensures sizes { IfSome result (λ p. length p.name.now + 1 + length p.format.now ≤ length body.now) }
{
    let (name, after) = cut(body)?;
    let (format, data) = cut(after)?;
    Some(UserParts { name, format, data })
}

// The parts of a sound user-defined body.
pub fn read_user(body: &[u8]) -> Result<UserParts<'_>, UserFault>
    ensures { result_map_both held_in (λ e. e) result ≡ user_of body.now }
{
    let parts = split(body).ok_or(UserFault::NoZero(body.len()))?;
    if let Some(i) = first_wrong(parts.format) {
        return Err(UserFault::Letter(parts.name.len() + 1 + i));
    }
    Ok(parts)
}

// Whether a user-defined body is sound.
// A function of its own, since callers judge without the parts.
pub fn judge_user(body: &[u8]) -> Result<(), UserFault>
    ensures { result ≡ sound (user_of body.now) }
{
    read_user(body).map(|_| ())
}
