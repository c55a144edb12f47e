// What the header of an index file counts.
#[derive(Clone, Copy, Debug, PartialEq, Eq)]
pub struct Counts {
    pub rows: u32,
    pub place: u32,
    pub skipped: u32,
}
