// An output: the tuples that were put, one behind the other.
ghost use Rattle.std.specs.Prelude.{◌≡◌, ◌≤◌, [], length, vec_len, OnOk};
ghost use Rattle.writing.specs.Parts.{Wide};
ghost use Rattle.writing.specs.Written.{front, wanting, putting};
ghost use Rattle.writing.specs.Outputs.{Holds, Adds};

use crate::header::Header;
use crate::refusal::{PutError, PutRefusal};
use byteorder::{ByteOrder, LittleEndian};
use std::alloc::Global;

// The most bytes of a body, and of an output.
const LONGEST: usize = 65_535;

const LIMIT: usize = 2_147_483_647;

// A tuple's header and footer.
const FRAME: usize = 16;

#[derive(Drop)]
pub struct Output {
    bytes: Vec<u8>,
    ghost bounded: { vec_len bytes ≤ 2147483647 },
}

// The bytes in front of a body.
fn front_bytes(header: Header, size: u16) -> [u8; 14]
    ensures value { result ≡ front header size }
    ensures wide { Wide header }
{
    let mut front = [0; 14];
    front[1] = 0x80;
    LittleEndian::write_u16(&mut front[2..], header.source_type);
    LittleEndian::write_u16(&mut front[4..], header.source_id);
    LittleEndian::write_u16(&mut front[6..], header.data_type);
    LittleEndian::write_u32(&mut front[8..], header.time);
    LittleEndian::write_u16(&mut front[12..], size);
    front
}

impl Output {
    #[tactic(auto, using(crate::proofs::Puts::holds_none))]
    pub fn new(heap: Global) -> Output
        ensures value { result.bytes.items ≡ [] }
        ensures law { Holds [] result.bytes.items }
    {
        Output {
            bytes: Vec::new(heap),
        }
    }

    pub fn bytes(&self) -> &[u8]
        ensures value { result.now ≡ self.now.bytes.items }
        ensures within { length result.now ≤ 2147483647 }
    {
        self.bytes.as_slice()
    }

    // Writes a tuple behind the others, or leaves the output as it was.
    pub fn put(&mut self, header: Header, body: &[u8]) -> Result<(), PutError>
        ensures value { (result, self.new.bytes.items) ≡ putting (wanting result) self.old.bytes.items header body.now }
        ensures law { OnOk result (Adds header body.now self.old.bytes.items self.new.bytes.items) }
    {
        if body.len() > LONGEST {
            return Err(PutRefusal::LongBody.into());
        }
        if self.bytes.len() + (body.len() + FRAME) > LIMIT {
            return Err(PutRefusal::Full.into());
        }
        let size = body.len() as u16;
        self.bytes.reserve(body.len() + FRAME)?;
        self.bytes.extend_from_slice(&front_bytes(header, size))?;
        self.bytes.extend_from_slice(body)?;
        self.bytes.extend_from_slice(&size.to_le_bytes())?;
        Ok(())
    }
}
