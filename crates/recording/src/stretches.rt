// A recording of which stretches are lost.
ghost use Rattle.std.specs.Prelude.{◌≡◌, ℕ, ◌+◌, ◌<◌, ◌≤◌, false, [], length, is_ok};
ghost use Rattle.std.specs.List.{list_any};
ghost use Rattle.recording.specs.Marks.{holds, meets, lost_at, marks, marking, without, without_bounded};
ghost use Rattle.recording.specs.Losses.{Loses};
ghost use Rattle.recording.specs.Refusals.{mark_refusal};

use crate::{Cell, PastEnd, Store};
use arrayvec::ArrayVec;
use refusals::{Notice, Refusal};

// The most stretches that are marked.
pub const MOST: usize = 64;

// `count` cells from `first` on.
#[derive(Clone, Copy, Debug, Default, PartialEq, Eq)]
pub struct Stretch {
    pub first: u32,
    pub count: u32,
}

#[derive(Clone, Copy, Debug, PartialEq, Eq)]
pub enum MarkRefusal {
    // The stretch has no cell.
    Empty,
    // The stretch passes the end of the recording.
    PastEnd,
    // No more stretches can be marked.
    Full,
}

// The recording below, of which the stretches are lost. They may overlap.
#[derive(Drop)]
pub struct Stretches<S> {
    below: S,
    rows: ArrayVec<Stretch, MOST>,
}

impl Stretch {
    // The place behind the last.
    fn end(&self) -> u64
        ensures { result ≡ self.now.first + self.now.count }
    {
        self.first as u64 + self.count as u64
    }

    fn has(&self, at: u32) -> bool
        ensures { result ≡ holds self.now at }
    {
        self.first <= at && (at as u64) < self.end()
    }

    // Whether one of the `count` places from `at` on lies in the stretch.
    fn touches(&self, at: u32, count: u32) -> bool
        ensures { result ≡ meets self.now at count }
    {
        let from = at.max(self.first) as u64;
        let to = (at as u64 + count as u64).min(self.end());
        from < to
    }

    // How many of the `count` places from `at` on come before the stretch, or all if it does not lie ahead.
    fn before(&self, at: u32, count: usize) -> usize
        ensures within { result ≤ count }
        ensures none { (k : ℕ) → k < result → holds self.now (at + k) ≡ false }
    {
        if self.end() <= at as u64 {
            count
        } else {
            count.min(self.first.saturating_sub(at) as usize)
        }
    }
}

// How many of the `count` places from `at` on come before the next stretch.
// A fold would be no plainer: `before` promises bounds and no value, so each step needs the loop's invariant.
fn unmarked(rows: &[Stretch], at: u32, count: usize) -> usize
    ensures within { result ≤ count }
    ensures none { (k : ℕ) → k < result → lost_at rows.now (at + k) ≡ false }
{
    let mut free = count;
    for row in rows {
        free = row.before(at, free);
        if free == 0 {
            return 0;
        }
    }
    free
}

impl<S: Store> Stretches<S> {
    // Nothing is marked.
    pub fn new(below: S) -> Stretches<S>
        ensures below { result.below ≡ below }
        ensures none { marks result ≡ [] }
        ensures cells { without (marks result) (S.Store.cells result.below) ≡ S.Store.cells below }
    {
        Stretches {
            below,
            rows: ArrayVec::new(),
        }
    }

    // The stretches that are marked.
    pub fn marked(&self) -> &[Stretch]
        ensures { result.now ≡ marks self.now }
    {
        self.rows.as_slice()
    }

    // Whether a stretch has the place.
    fn has(&self, at: u32) -> bool
        ensures { result ≡ lost_at (marks self.now) at }
    {
        self.marked().iter().any(|row| row.has(at))
    }

    // Whether one of the `count` places from `at` on lies in a stretch.
    fn touches(&self, at: u32, count: u32) -> bool
        ensures { result ≡ list_any (λ s. meets s at count) (marks self.now) }
    {
        self.marked().iter().any(|row| row.touches(at, count))
    }

    // Marks a stretch as lost. A refusal marks nothing.
    pub fn mark(&mut self, stretch: Stretch) -> Result<(), MarkRefusal>
        ensures marks { (result, marks self.new) ≡ marking (length (S.Store.cells self.old.below)) (marks self.old) stretch }
        ensures below { self.new.below ≡ self.old.below }
        ensures refused { is_ok result ≡ false → self.new ≡ self.old }
        ensures loses { Loses stretch (without (marks self.old) (S.Store.cells self.old.below)) (without (marks self.new) (S.Store.cells self.new.below)) result }
    {
        if stretch.count == 0 {
            return Err(MarkRefusal::Empty);
        }
        if stretch.end() > self.below.len() as u64 {
            return Err(MarkRefusal::PastEnd);
        }
        self.rows.try_push(stretch).map_err(|_| MarkRefusal::Full)
    }
}

impl<S: Store> Store for Stretches<S> {
    ghost cells = { λ s. without (marks s) (S.Store.cells s.below) };

    ghost bounded = { λ s. without_bounded (marks s) (S.Store.cells s.below) (S.Store.bounded s.below) };

    fn len(&self) -> u32 {
        self.below.len()
    }

    fn cell(&self, at: u32) -> Result<Cell, PastEnd> {
        if self.has(at) {
            self.below.cell(at).map(|_| Cell::Lost)
        } else {
            self.below.cell(at)
        }
    }

    // Looks at no cell of its own: a run that meets a stretch is not whole, and any other is as below.
    fn whole(&self, at: u32, count: u32) -> bool {
        !self.touches(at, count) && self.below.whole(at, count)
    }

    // The bytes below, up to the next stretch.
    fn run(&self, at: u32) -> &[u8] {
        let run = self.below.run(at);
        &run[0..unmarked(self.marked(), at, run.len())]
    }
}

impl Refusal for MarkRefusal {
    ghost told = { mark_refusal };

    fn notice(&self) -> Notice {
        match self {
            MarkRefusal::Empty | MarkRefusal::PastEnd => Notice::nowhere(14),
            MarkRefusal::Full => Notice::nowhere(23),
        }
    }
}
