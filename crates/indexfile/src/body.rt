// The rows of a file.
ghost use Rattle.std.specs.Prelude.{◌≡◌, ◌-◌, ◌/◌, ◌≤◌, length, drop};
ghost use Rattle.std.specs.Simd.{first_chunks};
ghost use Rattle.indexfile.specs.Files.{row_of};

use crate::row::Row;
use byteorder::{ByteOrder, LittleEndian};

// No From: that would make the bytes of a row part of the interface.
pub(crate) fn row_of(s: &[u8; 20]) -> Row
    ensures { result ≡ row_of s.now }
{
    Row {
        place: LittleEndian::read_u32(s),
        length: LittleEndian::read_u32(&s[4..]),
        tag: LittleEndian::read_u32(&s[8..]),
        source_type: LittleEndian::read_u16(&s[12..]),
        source_id: LittleEndian::read_u16(&s[14..]),
        time: LittleEndian::read_u32(&s[16..]),
    }
}

// The bytes behind the header, 20 for each row.
pub(crate) fn rows_behind(bytes: &[u8]) -> &[[u8; 20]]
    requires { 16 ≤ length bytes.now }
    ensures { result.now ≡ first_chunks 20 ((length bytes.now - 16) / 20) (drop 16 bytes.now) }
{
    bytes[16..].as_chunks().0
}
