// Sonar and profile, type 14: an extra header and two packets, the one of sonar data and the other of profiles.
ghost use Rattle.std.specs.Prelude.{◌≡◌, ◌+◌, length, IfOk};
ghost use Rattle.std.specs.Result.{result_map_both};
ghost use Rattle.packets.specs.Packets.{counted, pair_packets, pair_body};
ghost use Rattle.packets.specs.Parts.{two_held, pair_parts};

use crate::fault::PacketFault;
use crate::packet::{Content, Packet, PacketParts, judge_pings, packet_at, parts_at};
use layouts::settings::Counter;

// A body of two packets.
#[derive(Clone, Copy)]
pub struct TwoPackets<'a> {
    pub extra_header: &'a [u8],
    pub first: PacketParts<'a>,
    pub second: PacketParts<'a>,
}

// The two headers, in a body of the right length.
fn pair_packets(body: &[u8], counter: Counter) -> Result<(Packet, Packet), PacketFault>
    ensures value { result ≡ pair_packets counter body.now }
    ensures long { IfOk result (λ p. length body.now ≡ 20 + counted counter p.0 + counted counter p.1) }
{
    let first = packet_at(body, 20)?;
    let at = 20 + first.counted(counter);
    let second = packet_at(body, at)?;
    if second.content == first.content {
        return Err(PacketFault::DataType(at + 2));
    }
    if body.len() != at + second.counted(counter) {
        return Err(PacketFault::Length);
    }
    Ok((first, second))
}

// Whether a sonar and profile body is sound.
// A function of its own, since callers judge without the parts.
pub fn judge_pair(body: &[u8], counter: Counter) -> Result<(), PacketFault>
    ensures { result ≡ pair_body counter body.now }
{
    read_pair(body, counter).map(|_| ())
}

// The parts of a sound sonar and profile body.
pub fn read_pair(body: &[u8], counter: Counter) -> Result<TwoPackets<'_>, PacketFault>
    ensures { result_map_both two_held (λ e. e) result ≡ pair_parts counter body.now }
{
    let (first, second) = pair_packets(body, counter)?;
    let sonar = match first.content {
        Content::Sonar => first,
        Content::Profile => second,
    };
    judge_pings(
        body,
        usize::from(sonar.data_number),
        usize::from(sonar.data_size_bytes),
    )?;
    let at = 20 + first.counted(counter);
    Ok(TwoPackets {
        extra_header: &body[0..20],
        first: parts_at(body, 20, first, first.counter(counter)),
        second: parts_at(body, at, second, second.counter(counter)),
    })
}
