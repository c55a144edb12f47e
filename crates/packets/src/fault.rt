// What may be wrong with a body of pings or profiles.
ghost use Rattle.packets.specs.Faults.{packet_fault};

use refusals::{Notice, Refusal};

#[derive(Clone, Copy, Debug, PartialEq, Eq)]
pub enum PacketFault {
    // A header does not fit, or the body is not exactly as long as its headers say.
    Length,
    // HeaderSizeBytes is not 22.
    HeaderSizeBytes(usize),
    // DataType is none that may stand there.
    DataType(usize),
    // BitsPerSample is not 8 or 16.
    BitsPerSample,
    // A ping of 16-bit samples has an odd number of bytes.
    OddPing,
}

impl Refusal for PacketFault {
    ghost told = { packet_fault };

    fn notice(&self) -> Notice {
        match *self {
            PacketFault::Length => Notice::nowhere(6),
            PacketFault::HeaderSizeBytes(at) | PacketFault::DataType(at) => Notice::at(9, at),
            PacketFault::BitsPerSample | PacketFault::OddPing => Notice::at(11, 11),
        }
    }
}
