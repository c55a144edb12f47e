// Profile, type 13: an extra header and a profile packet.
ghost use Rattle.std.specs.Prelude.{◌≡◌};
ghost use Rattle.std.specs.Result.{result_map_both};
ghost use Rattle.packets.specs.Packets.{profile_body};
ghost use Rattle.packets.specs.Parts.{one_held, profile_parts};

use crate::fault::PacketFault;
use crate::packet::{Content, PacketParts, packet_of, parts_at};

// A body of one packet.
#[derive(Clone, Copy)]
pub struct OnePacket<'a> {
    pub extra_header: &'a [u8],
    pub packet: PacketParts<'a>,
}

// Whether a profile body is sound.
// A function of its own, since callers judge without the parts.
pub fn judge_profile(body: &[u8]) -> Result<(), PacketFault>
    ensures { result ≡ profile_body body.now }
{
    read_profile(body).map(|_| ())
}

// The parts of a sound profile body.
pub fn read_profile(body: &[u8]) -> Result<OnePacket<'_>, PacketFault>
    ensures { result_map_both one_held (λ e. e) result ≡ profile_parts body.now }
{
    let packet = packet_of(Content::Profile, body, 20)?;
    if body.len() != 20 + packet.plain() {
        return Err(PacketFault::Length);
    }
    Ok(OnePacket {
        extra_header: &body[0..20],
        packet: parts_at(body, 20, packet, 0),
    })
}
