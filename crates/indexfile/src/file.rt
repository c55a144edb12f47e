// An index file that is read.
ghost use Rattle.std.specs.Prelude.{◌≡◌, ◌≤◌, length, true, Ok};
ghost use Rattle.std.specs.Bool.{then_some};
ghost use Rattle.std.specs.Result.{result_map_both};
ghost use Rattle.indexfile.specs.Files.{shaped, sound_file, counts_in};
ghost use Rattle.indexfile.specs.Reading.{reading, held_row, reached_row};

use crate::body::{row_of, rows_behind};
use crate::counts::Counts;
use crate::refusal::ReadRefusal;
use crate::row::Row;
use crate::sound::{MOST, sound};
use byteorder::{ByteOrder, LittleEndian};

// The bytes of a sound file, and what its header counts.
#[derive(Clone, Copy)]
pub struct IndexFile<'a> {
    bytes: &'a [u8],
    counts: Counts,
    ghost sound: { sound_file bytes.now ≡ true },
}

// A header that counts as many rows as stand behind it.
fn is_shaped(bytes: &[u8]) -> bool
    ensures { result ≡ shaped bytes.now }
{
    if bytes.len() < 16 || LittleEndian::read_u32(&bytes[4..]) != 16 {
        return false;
    }
    let count = LittleEndian::read_u32(bytes) as usize;
    count <= MOST && bytes.len() == 16 + 20 * count
}

fn counts_at(bytes: &[u8]) -> Counts
    requires { 16 ≤ length bytes.now }
    ensures { result ≡ counts_in bytes.now }
{
    Counts {
        rows: LittleEndian::read_u32(bytes),
        place: LittleEndian::read_u32(&bytes[8..]),
        skipped: LittleEndian::read_u32(&bytes[12..]),
    }
}

// The counts of a sound file.
fn sound_counts(bytes: &[u8]) -> Option<Counts>
    ensures { result ≡ then_some (sound_file bytes.now) (counts_in bytes.now) }
{
    if !is_shaped(bytes) {
        return None;
    }
    let counts = counts_at(bytes);
    let rows = rows_behind(bytes).iter().map(row_of);
    sound(rows, counts).then_some(counts)
}

impl<'a> IndexFile<'a> {
    ghost use Rattle.indexfile.specs.Seen.{seen};

    // The file in these bytes, if they are sound.
    pub fn read(bytes: &'a [u8]) -> Result<IndexFile<'a>, ReadRefusal>
        ensures { result_map_both seen (λ e. e) result ≡ reading bytes.now (Ok (bytes.now, counts_in bytes.now)) }
    {
        let counts = sound_counts(bytes).ok_or(ReadRefusal::Unsound)?;
        Ok(IndexFile { bytes, counts })
    }

    // The rows held, the place reached and the cells skipped.
    pub fn counts(&self) -> Counts
        ensures { result ≡ self.now.counts }
    {
        self.counts
    }

    // A row by its number, from 0.
    pub fn row(&self, n: u32) -> Result<Row, ReadRefusal>
        ensures { result ≡ reached_row self.now.bytes.now n }
    {
        rows_behind(self.bytes)
            .get(n as usize)
            .map(row_of)
            .ok_or(ReadRefusal::RowNotHeld)
    }
}

// The counts of a file, or why it is refused.
pub fn counts_in(bytes: &[u8]) -> Result<Counts, ReadRefusal>
    ensures { result ≡ reading bytes.now (Ok (counts_in bytes.now)) }
{
    Ok(IndexFile::read(bytes)?.counts())
}

// A row of a file, or why it is refused.
pub fn row_in(bytes: &[u8], n: u32) -> Result<Row, ReadRefusal>
    ensures { result ≡ reading bytes.now (held_row bytes.now n) }
{
    IndexFile::read(bytes)?.row(n)
}
