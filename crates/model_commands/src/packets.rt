ghost use Rattle.std.specs.Prelude.{◌≡◌};
ghost use Rattle.model_commands.specs.BlankPacket.{blank_packet};

use loop_packet::LoopPacket;

/// The packet of a new console's sensors, the same at each call.
pub fn blank_packet() -> LoopPacket
    ensures { result ≡ blank_packet }
{
    LoopPacket::blank()
}
