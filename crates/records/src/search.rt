// A search for two bytes that stand side by side.
// memmem::find of the library was tried: on small tuples it takes twice as long.
ghost use Rattle.std.specs.Prelude.{◌≡◌, ◌+◌, ◌≤◌, map, length, ◌==◌, nat_eq};
ghost use Rattle.std.specs.Simd.Lanes.{mask_l, chunk};
ghost use Rattle.records.specs.Searching.{differs, lanes, Unlike};

use std::simd::prelude::*;

// The places that are looked at at once.
const LANES: usize = 32;

// The bytes that are looked for.
#[derive(Clone, Copy)]
pub(crate) struct Pair {
    pub(crate) first: u8,
    pub(crate) second: u8,
}

impl Pair {
    // At which of the places from `at` on the pair stands, a bit for each.
    fn found(&self, run: &[u8], at: usize) -> u64
        requires { at + 33 ≤ length run.now }
        ensures { result ≡ mask_l (map (λ x. nat_eq x 0) (lanes self.now (chunk at 32 run.now) (chunk (at + 1) 32 run.now))) }
    {
        let here = u8x32::from_slice(&run[at..at + LANES]) ^ u8x32::splat(self.first);
        let next = u8x32::from_slice(&run[at + 1..at + 1 + LANES]) ^ u8x32::splat(self.second);
        (here | next).simd_eq(u8x32::splat(0)).to_bitmask()
    }

    fn is(&self, first: u8, second: u8) -> bool
        ensures { result ≡ (differs self.now first second == 0) }
    {
        (first ^ self.first) | (second ^ self.second) == 0
    }

    // How many places at the front of a run the pair does not stand at. The last place is not among them.
    pub(crate) fn missing(&self, run: &[u8]) -> usize
        ensures { Unlike self.now run.now result }
    {
        let last = run.len().saturating_sub(1);
        for block in 0..last / LANES {
            let at = block * LANES;
            let found = self.found(run, at);
            if found != 0 {
                return at + found.trailing_zeros() as usize;
            }
        }
        // A find over the range would be no plainer.
        for at in last / LANES * LANES..last {
            if self.is(run[at], run[at + 1]) {
                return at;
            }
        }
        last
    }
}
