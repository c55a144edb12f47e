// Bytes that may stand in a sentence's text, judged many at once.
ghost use Rattle.std.specs.Prelude.{◌≡◌, ◌≤◌, map, take};
ghost use Rattle.std.specs.List.{prefix_len};
ghost use Rattle.std.specs.Simd.Lanes.{mask_l};
ghost use Rattle.records.specs.Sentences.{text_char, xored};
ghost use Rattle.records.specs.Searching.{strange};

use crate::sentences::is_text_char;
use std::simd::prelude::*;

// The bytes that are looked at at once.
const LANES: usize = 16;

// Which bytes may stand in no text, a bit for each.
#[inline(always)]
fn strange(v: u8x16) -> u64
    ensures { result ≡ mask_l (map strange v) }
{
    (v.simd_lt(u8x16::splat(0x20))
        | v.simd_ge(u8x16::splat(0x7f))
        | v.simd_eq(u8x16::splat(b'$'))
        | v.simd_eq(u8x16::splat(b'!'))
        | v.simd_eq(u8x16::splat(b'*'))).to_bitmask()
}

// The exclusive-or of a number and the first n bytes.
#[inline(always)]
fn sum_of(v: u8x16, n: usize, sum: u8) -> u8
    requires { n ≤ 16 }
    ensures { result ≡ xored sum (take n v) }
{
    let order = u8x16::from_array([0, 1, 2, 3, 4, 5, 6, 7, 8, 9, 10, 11, 12, 13, 14, 15]);
    let kept = order
        .simd_lt(u8x16::splat(n as u8))
        .select(v, u8x16::splat(0));
    sum ^ kept.reduce_xor()
}

// How many bytes at the front may stand in a text, and the exclusive-or of a number and them.
#[inline(always)]
pub(crate) fn text_at_front(bytes: &[u8], name_sum: u8) -> (usize, u8)
    ensures len { result.0 ≡ prefix_len text_char bytes.now }
    ensures sum { result.1 ≡ xored name_sum (take result.0 bytes.now) }
{
    let mut sum = name_sum;
    let mut i = 0;
    // Counted, since where the loops stop is the answer, and the second goes on from the first: chunks would be no plainer.
    while bytes.len() - i >= LANES {
        let v = u8x16::from_slice(&bytes[i..]);
        let found = strange(v);
        if found != 0 {
            let n = found.trailing_zeros() as usize;
            return (i + n, sum_of(v, n, sum));
        }
        sum = sum_of(v, LANES, sum);
        i += LANES;
    }
    while i < bytes.len() && is_text_char(bytes[i]) {
        sum ^= bytes[i];
        i += 1;
    }
    (i, sum)
}
