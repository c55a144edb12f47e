// A line of the table: a record and its place.
ghost use Rattle.std.specs.Prelude.{Some};
ghost use Rattle.indexfile.specs.Lines.{row_text};

use std::fmt;

// No Record inside: index files need nothing of the rest.
#[derive(Clone, Copy, Debug, Default, PartialEq, Eq)]
pub struct Row {
    pub place: u32,
    pub length: u32,
    pub tag: u32,
    pub source_type: u16,
    pub source_id: u16,
    pub time: u32,
}

impl fmt::Display for Row {
    ghost output = { λ r. Some (row_text r) };

    fn fmt<W: fmt::Write>(&self, f: &mut fmt::Formatter<W>) -> fmt::Result {
        let Row {
            place,
            length,
            tag,
            source_type,
            source_id,
            time,
        } = *self;
        write!(f, "{place} {length} {tag} {source_type} {source_id} {time}")
    }
}
