// Multi sonar, type 21: an extra header, a packet of pings, and a counter for each of them.
ghost use Rattle.std.specs.Prelude.{◌≡◌};
ghost use Rattle.std.specs.Result.{result_map_both};
ghost use Rattle.packets.specs.Packets.{multi_body};
ghost use Rattle.packets.specs.Parts.{one_held, multi_parts};

use crate::fault::PacketFault;
use crate::packet::{Content, counter_length, judge_pings, packet_of, parts_at};
use crate::profile::OnePacket;
use layouts::settings::Counter;

// Whether a multi sonar body is sound.
// A function of its own, since callers judge without the parts.
// Not one struct: the body comes from a buffer, the counter from settings.
pub fn judge_multi(body: &[u8], counter: Counter) -> Result<(), PacketFault>
    ensures { result ≡ multi_body counter body.now }
{
    read_multi(body, counter).map(|_| ())
}

// The parts of a sound multi sonar body.
pub fn read_multi(body: &[u8], counter: Counter) -> Result<OnePacket<'_>, PacketFault>
    ensures { result_map_both one_held (λ e. e) result ≡ multi_parts counter body.now }
{
    let packet = packet_of(Content::Sonar, body, 20)?;
    let count = usize::from(packet.data_number);
    let counters = count * counter_length(counter);
    if body.len() != 20 + packet.plain() + counters {
        return Err(PacketFault::Length);
    }
    judge_pings(body, count, usize::from(packet.data_size_bytes))?;
    Ok(OnePacket {
        extra_header: &body[0..20],
        packet: parts_at(body, 20, packet, counters),
    })
}
