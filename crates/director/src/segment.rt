// What a packet says of a connection: its client, who sent it, and TCP's flags. Refusals 6, 20, 7 to 10.
ghost use Rattle.std.specs.Prelude.{◌≡◌, ◌≤◌};
ghost use Rattle.director.specs.Segment.{from_client, from_server, segment_read};

use crate::state::{Director, Refusal, Service, Way};
use packet::read::{Flags, Packet, read_packet};
use servers::ServerNo;
use servers::rules::number_of;

// Who sent a packet. (Not an `Option<ServerNo>`: a client is no absence, and the definitions go by the two cases.)
#[derive(Clone, Copy)]
pub enum Sender {
    Client,
    Server(ServerNo),
}

// A packet of the service: its client's address and port, its sender and its flags (all clear in UDP).
#[derive(Clone, Copy)]
pub struct Segment {
    pub address: u32,
    pub port: u16,
    pub sender: Sender,
    pub flags: Flags,
}

// An inbound packet: its destination is the virtual address and port, or refusal 10.
fn from_client(service: Service, p: Packet) -> Result<Segment, Refusal>
    ensures { result ≡ from_client service p }
{
    if p.destination != service.address || p.transport.destination != service.port {
        return Err(Refusal::OtherEndpoint);
    }
    Ok(Segment {
        address: p.source,
        port: p.transport.source,
        sender: Sender::Client,
        flags: p.transport.flags,
    })
}

// An outbound packet: its source is a server's address and port, or refusal 10. (For why n ≤ 64 is asked here and below see `number_of` in
// `servers`. `n` keeps the line short.)
fn from_server(director: &Director, p: Packet) -> Result<Segment, Refusal>
    requires { director.now.service.servers ≤ 64 }
    ensures { result ≡ from_server director.now.service director.now.servers p }
{
    let n = director.service.servers;
    let Some(no) = number_of(&director.servers, n, p.source, p.transport.source) else {
        return Err(Refusal::OtherEndpoint);
    };
    Ok(Segment {
        address: p.destination,
        port: p.transport.destination,
        sender: Sender::Server(no),
        flags: p.transport.flags,
    })
}

// What a packet says, or the first of refusals 6, 20, 7 to 10.
#[tactic(auto, unfolding(crate::specs::Segment::segment_read))]
pub fn read_segment(way: Way, director: &Director, packet: &[u8]) -> Result<Segment, Refusal>
    requires { director.now.service.servers ≤ 64 }
    ensures { result ≡ segment_read way director.now.service director.now.servers packet.now }
{
    let p = read_packet(director.service.protocol, packet)?;
    match way {
        Way::Inbound => from_client(director.service, p),
        Way::Outbound => from_server(director, p),
    }
}
