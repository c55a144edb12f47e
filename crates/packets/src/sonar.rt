// Sonar, type 12: an extra header, one ping and its counter.
ghost use Rattle.std.specs.Prelude.{◌≡◌};
ghost use Rattle.std.specs.Result.{result_map_both};
ghost use Rattle.packets.specs.Packets.{sonar_body};
ghost use Rattle.packets.specs.Parts.{sonar_held, sonar_parts};

use crate::fault::PacketFault;
use crate::packet::{counter_length, judge_pings};
use byteorder::{ByteOrder, LittleEndian};
use layouts::settings::Counter;

// The parts of a sonar body; BytesInPacket is handed on as it stands.
#[derive(Clone, Copy)]
pub struct SonarParts<'a> {
    pub bytes_in_packet: u16,
    pub extra_header: &'a [u8],
    pub data: &'a [u8],
    pub counter: &'a [u8],
}

// Whether a sonar body is sound.
// A function of its own, since callers judge without the parts.
pub fn judge_sonar(body: &[u8], counter: Counter) -> Result<(), PacketFault>
    ensures { result ≡ sonar_body counter body.now }
{
    let around = 20 + counter_length(counter);
    if body.len() < around {
        return Err(PacketFault::Length);
    }
    judge_pings(body, 1, body.len() - around)
}

// The parts of a sound sonar body.
pub fn read_sonar(body: &[u8], counter: Counter) -> Result<SonarParts<'_>, PacketFault>
    ensures { result_map_both sonar_held (λ e. e) result ≡ sonar_parts counter body.now }
{
    judge_sonar(body, counter)?;
    let end = body.len() - counter_length(counter);
    Ok(SonarParts {
        bytes_in_packet: LittleEndian::read_u16(body),
        extra_header: &body[0..20],
        data: &body[20..end],
        counter: &body[end..],
    })
}
