// Writing an index file.
ghost use Rattle.std.specs.Prelude.{◌≡◌, ℕ, ◌+◌, ◌*◌, ◌<◌, ◌≤◌, ◌++◌, length, take, drop, IfOk, slice_index_or};
ghost use Rattle.indexfile.specs.Files.{row_bytes, head_bytes, file_of, writing};
ghost use Rattle.indexfile.specs.Written.{Wide, no_row, ReadsBack};

use crate::counts::Counts;
use crate::refusal::WriteRefusal;
use crate::row::Row;
use crate::sound::{MOST, is_sound};
use byteorder::{ByteOrder, LittleEndian};

fn put_head(slot: &mut [u8], counts: Counts)
    requires { 16 ≤ length slot.old }
    ensures { slot.new ≡ head_bytes counts.rows counts.place counts.skipped ++ drop 16 slot.old }
{
    LittleEndian::write_u32(slot, counts.rows);
    LittleEndian::write_u32(&mut slot[4..], 16);
    LittleEndian::write_u32(&mut slot[8..], counts.place);
    LittleEndian::write_u32(&mut slot[12..], counts.skipped);
}

fn put_row(slot: &mut [u8], row: Row)
    requires { 20 ≤ length slot.old }
    ensures bytes { slot.new ≡ row_bytes row ++ drop 20 slot.old }
    ensures wide { Wide row }
{
    LittleEndian::write_u32(slot, row.place);
    LittleEndian::write_u32(&mut slot[4..], row.length);
    LittleEndian::write_u32(&mut slot[8..], row.tag);
    LittleEndian::write_u16(&mut slot[12..], row.source_type);
    LittleEndian::write_u16(&mut slot[14..], row.source_id);
    LittleEndian::write_u32(&mut slot[16..], row.time);
}

// The file, in a buffer that has room for it.
fn fill(rows: &[Row], counts: Counts, buffer: &mut [u8])
    requires all { counts.rows ≡ length rows.now }
    requires room { 16 + 20 * length rows.now ≤ length buffer.old }
    ensures bytes { buffer.new ≡ file_of counts.place counts.skipped rows.now ++ drop (16 + 20 * length rows.now) buffer.old }
    ensures wide { (k : ℕ) → k < length rows.now → Wide (slice_index_or rows.now k no_row) }
{
    put_head(buffer, counts);
    // Chunks to write to would be no plainer: what each holds in the end is told place by place.
    for (n, row) in rows.iter().enumerate() {
        put_row(&mut buffer[16 + 20 * n..], *row);
    }
}

// Writes the rows, the place reached and the cells skipped, and says how many bytes the file has.
// The buffer is lent by the caller, and no Counts: its rows would repeat the length of the rows.
pub fn write(rows: &[Row], place: u32, skipped: u32, buffer: &mut [u8]) -> Result<u32, WriteRefusal>
    ensures value { (result, buffer.new) ≡ writing place skipped rows.now buffer.old }
    ensures law { IfOk result (λ size. ReadsBack place skipped rows.now (take size buffer.new)) }
{
    if rows.len() > MOST {
        return Err(WriteRefusal::UnsoundRows);
    }
    let counts = Counts {
        rows: rows.len() as u32,
        place,
        skipped,
    };
    if !is_sound(rows, counts) {
        return Err(WriteRefusal::UnsoundRows);
    }
    let size = 16 + 20 * rows.len();
    if buffer.len() < size {
        return Err(WriteRefusal::ShortBuffer);
    }
    fill(rows, counts, buffer);
    Ok(size as u32)
}
