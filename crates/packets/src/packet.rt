// Packets: a header of 22 bytes and the data that it announces.
ghost use Rattle.std.specs.Prelude.{◌≡◌, ◌+◌, ◌*◌, ◌≤◌, length};
ghost use Rattle.std.specs.Option.{ok_or};
ghost use Rattle.packets.specs.Packets.{content_of, packet_at, packet_of, data_length, plain, counter_length, counter_of, counted, pings};
ghost use Rattle.packets.specs.Parts.{parts_held, parts_at};

use crate::fault::PacketFault;
use byteorder::{ByteOrder, LittleEndian};
use layouts::settings::Counter;

// What a packet holds: DataType 1 and 2 are sonar data, 3 and 4 profiles.
#[derive(Clone, Copy, Debug, PartialEq, Eq)]
pub enum Content {
    Sonar,
    Profile,
}

// What a packet's header says: the data are DataNumber times DataSizeBytes.
#[derive(Clone, Copy, Debug, PartialEq, Eq)]
pub struct Packet {
    pub content: Content,
    pub data_number: u16,
    pub data_size_bytes: u16,
}

// A packet in a body: its header, its data, and the counters behind them.
#[derive(Clone, Copy)]
pub struct PacketParts<'a> {
    pub packet: Packet,
    pub header: &'a [u8],
    pub data: &'a [u8],
    pub counters: &'a [u8],
}

// A DataType that stands for neither.
#[derive(Clone, Copy, Debug, PartialEq, Eq)]
pub struct UnknownContent;

impl TryFrom<u16> for Content {
    type Error = UnknownContent;

    ghost try_from_gives = { λ n r. r ≡ ok_or (content_of n) (record {}) };

    fn try_from(data_type: u16) -> Result<Content, UnknownContent> {
        match data_type {
            1..=2 => Ok(Content::Sonar),
            3..=4 => Ok(Content::Profile),
            _ => Err(UnknownContent),
        }
    }
}

pub(crate) fn packet_at(body: &[u8], at: usize) -> Result<Packet, PacketFault>
    ensures { result ≡ packet_at body.now at }
{
    let header = body
        .get(at..)
        .filter(|header| header.len() >= 22)
        .ok_or(PacketFault::Length)?;
    if LittleEndian::read_u16(header) != 22 {
        return Err(PacketFault::HeaderSizeBytes(at));
    }
    let Ok(content) = Content::try_from(LittleEndian::read_u16(&header[2..])) else {
        return Err(PacketFault::DataType(at + 2));
    };
    Ok(Packet {
        content,
        data_number: LittleEndian::read_u16(&header[4..]),
        data_size_bytes: LittleEndian::read_u16(&header[6..]),
    })
}

// The same, where only one content will do.
pub(crate) fn packet_of(content: Content, body: &[u8], at: usize) -> Result<Packet, PacketFault>
    ensures { result ≡ packet_of content body.now at }
{
    let packet = packet_at(body, at)?;
    if packet.content != content {
        return Err(PacketFault::DataType(at + 2));
    }
    Ok(packet)
}

pub(crate) fn counter_length(counter: Counter) -> usize
    ensures value { result ≡ counter_length counter }
    ensures bound { result ≤ 2 }
{
    match counter {
        Counter::With => 2,
        Counter::Without => 0,
    }
}

impl Packet {
    // How many bytes of data the header announces.
    fn data(self) -> usize
        ensures value { result ≡ data_length self }
        ensures bound { result ≤ 65535 * 65535 }
    {
        usize::from(self.data_number) * usize::from(self.data_size_bytes)
    }

    // The header and its data.
    pub(crate) fn plain(self) -> usize
        ensures value { result ≡ plain self }
        ensures bound { result ≤ 22 + 65535 * 65535 }
    {
        22 + self.data()
    }

    // The counter that stands behind sonar data.
    pub(crate) fn counter(self, counter: Counter) -> usize
        ensures value { result ≡ counter_of counter self }
        ensures bound { result ≤ 2 }
    {
        match self.content {
            Content::Sonar => counter_length(counter),
            Content::Profile => 0,
        }
    }

    pub(crate) fn counted(self, counter: Counter) -> usize
        ensures value { result ≡ counted counter self }
        ensures bound { result ≤ 24 + 65535 * 65535 }
    {
        self.plain() + self.counter(counter)
    }
}

// So many pings of so many bytes, by the BitsPerSample of the extra header.
pub(crate) fn judge_pings(body: &[u8], count: usize, size: usize) -> Result<(), PacketFault>
    requires { 12 ≤ length body.now }
    ensures { result ≡ pings body.now count size }
{
    match body[11] {
        8 => Ok(()),
        16 if count != 0 && size % 2 != 0 => Err(PacketFault::OddPing),
        16 => Ok(()),
        _ => Err(PacketFault::BitsPerSample),
    }
}

pub(crate) fn parts_at(body: &[u8], at: usize, packet: Packet, counters: usize) -> PacketParts<'_>
    requires { at + plain packet + counters ≤ length body.now }
    ensures { parts_held result ≡ parts_at body.now at packet counters }
{
    PacketParts {
        packet,
        header: &body[at..at + 22],
        data: &body[at + 22..at + packet.plain()],
        counters: &body[at + packet.plain()..at + packet.plain() + counters],
    }
}
