// The fixed bodies: types whose members never vary.
ghost use Rattle.std.specs.Prelude.{◌≡◌, ◌≤◌, length, IfSome, IfOk};
ghost use Rattle.std.specs.Option.{option_map};
ghost use Rattle.std.specs.Result.{result_map_both};
ghost use Rattle.layouts.specs.Checks.{sound};
ghost use Rattle.layouts.specs.Letters.{total as total_of};
ghost use Rattle.layouts.specs.Catalogue.{laid, layout_of, fixed_body, Sums};

use crate::fault::LayoutFault;
use crate::letters::Letter::{B, D, F, L, R, S, W};
use crate::letters::{Letter, Letters};

// The letters of a fixed body, and how many bytes they take.
#[derive(Clone, Copy)]
pub struct Layout {
    pub letters: &'static [Letter],
    pub length: usize,
}

// The layout of a type, if its bodies are fixed.
// Names for the types would be no plainer: each number stands once, beside its letters.
pub fn layout_of(data_type: u32) -> Option<Layout>
    ensures value { option_map laid result ≡ layout_of data_type }
    ensures whole { IfSome result (λ l. (l.length ≡ total_of l.letters.now) × (length l.letters.now ≤ 100)) }
    ensures table { Sums }
{
    let (letters, length): (&'static [Letter], usize) = match data_type {
        0 => (&[D, D, B, D, B, W, W, D, D, D, D, W], 64),
        1 => (&[L, D, B, D, B, D, B, D, B, D, B, D, B], 58),
        2 => (&[D, B, D, B, D, B], 27),
        3 => (&[B, B, B, W, B, W, B], 9),
        4 => (&[D, D, B, D, B], 26),
        5 => (&[D, B], 9),
        6 => (&[D], 8),
        7 => (&[B, D, B, D, B, R(20), D, B, B], 49),
        8 => (&[D, D, D, D], 32),
        9 => (&[D, D], 16),
        10 => (&[L, L, D, B, D, D], 33),
        22 => (&[L, W, R(26)], 32),
        23 => (&[F, F, F, F, F, F, L], 28),
        25 => (
            &[D, D, D, D, D, D, D, D, B, B, B, B, W, W, W, W, R(56)],
            132,
        ),
        1001 => (&[D, B, D, B, D, B], 27),
        1002 => (&[D, D], 16),
        1003 => (&[D, B], 9),
        1004 => (&[B, D, B, D, B, D, D, D, D, D, B], 60),
        1005 => (&[D, B, D, B, D, B, D, D, L, D, B], 56),
        1006 => (&[D, D, B, D, D, B], 34),
        1007 => (&[D, B, D, B, D, B, D, B], 36),
        1008 => (&[D, W, W, W, S, S], 18),
        _ => return None,
    };
    Some(Layout { letters, length })
}

// The letters of a body that is as long as they are.
pub(crate) fn fixed_letters(data_type: u32, body: &[u8]) -> Result<Letters<'static>, LayoutFault>
    ensures value { result_map_both (λ l. (l.letters.now, length body.now)) (λ e. e) result ≡ fixed_body data_type body.now }
    ensures whole { IfOk result (λ l. length body.now ≡ total_of l.letters.now) }
{
    let Layout { letters, length } = layout_of(data_type).ok_or(LayoutFault::NoLayout)?;
    if body.len() != length {
        return Err(LayoutFault::Length);
    }
    Ok(Letters { letters })
}

// Whether a body has the length of its type's layout.
// A function of its own, since callers judge without the parts.
pub fn judge_fixed(data_type: u32, body: &[u8]) -> Result<(), LayoutFault>
    ensures { result ≡ sound (fixed_body data_type body.now) }
{
    fixed_letters(data_type, body).map(|_| ())
}
