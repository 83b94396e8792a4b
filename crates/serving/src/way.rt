// Which of the two packet calls a packet is given to.
ghost use Rattle.std.specs.Prelude.{◌≡◌};
ghost use Rattle.serving.specs.Way.{way_of};

use director::state::Way;
use packet::bytes::address_at;

// Inbound where the packet is for the virtual address or too short to tell, else outbound.
pub fn way_of(address: u32, packet: &[u8]) -> Way
    ensures { result ≡ way_of address packet.now }
{
    if packet.len() < 20 || address_at(packet, 16) == address {
        Way::Inbound
    } else {
        Way::Outbound
    }
}
