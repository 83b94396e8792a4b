// Reads an IPv4 packet with TCP or UDP in it (RFC 791, 9293, 768).
ghost use Rattle.std.specs.Prelude.{◌≡◌, ◌≤◌, length};
ghost use Rattle.packet.specs.Reading.{fault_number, broken, Whole, header_verifies, fragment, header_of, read_header, flags_of, read_tcp, read_udp, read_transport, read_payload, read_packet};

use crate::bytes::{address_at, header_length, length_at};
use checksum::{is_valid, word_at};

// The flags of a TCP header that connections go by.
#[derive(Clone, Copy, Default)]
pub struct Flags {
    pub syn: bool,
    pub ack: bool,
    pub rst: bool,
    pub fin: bool,
}

// A TCP or UDP header: its ports, and TCP's flags (UDP has none: all are false).
#[derive(Clone, Copy)]
pub struct TransportHeader {
    pub source: u16,
    pub destination: u16,
    pub flags: Flags,
}

// Why a packet is refused, in the order of the tests.
#[derive(Clone, Copy, PartialEq, Eq)]
pub enum Fault {
    MalformedHeader,
    BadChecksum,
    Fragment,
    OtherProtocol,
    MalformedTransport,
}

// The number of a fault (SCOPE 4.6 to 4.9, 4.20).
impl From<Fault> for u8 {
    ghost from_gives = { λ fault number. number ≡ fault_number fault };

    fn from(fault: Fault) -> u8 {
        match fault {
            Fault::MalformedHeader => 6,
            Fault::BadChecksum => 20,
            Fault::Fragment => 7,
            Fault::OtherProtocol => 8,
            Fault::MalformedTransport => 9,
        }
    }
}

// An IPv4 header that was read: its own length and the packet's in bytes, its addresses, and what it carries (a byte of it: any may
// come).
#[derive(Clone, Copy)]
pub struct Header {
    pub length: usize,
    pub total: usize,
    pub source: u32,
    pub destination: u32,
    pub protocol: u8,
}

// A packet that was taken: its lengths in bytes, addresses, and what its transport header holds.
#[derive(Clone, Copy)]
pub struct Packet {
    pub header: usize,
    pub total: usize,
    pub source: u32,
    pub destination: u32,
    pub transport: TransportHeader,
}

// Whether the version or a length is wrong: refusal 6.
#[tactic(auto, unfolding(crate::specs::Reading::broken))]
fn is_broken(p: &[u8]) -> bool
    ensures { result ≡ broken p.now }
{
    p.len() < 20
        || p[0] / 16 != 4
        || p[0] % 16 < 5
        || length_at(p, 2) < header_length(p)
        || p.len() < length_at(p, 2)
}

// Whether the header checksum is valid; where it is not, that is refusal 20.
fn is_header_valid(p: &[u8]) -> bool
    requires { Whole p.now }
    ensures { result ≡ header_verifies p.now }
{
    is_valid(&p[..header_length(p)])
}

// Whether the packet is a fragment: refusal 7.
#[tactic(auto, unfolding(crate::specs::Reading::fragment))]
fn is_fragment(p: &[u8]) -> bool
    requires { Whole p.now }
    ensures { result ≡ fragment p.now }
{
    let word = word_at(p, 6);
    word / 8192 % 2 == 1 || word % 8192 != 0
}

// The header's fields.
fn header_of(p: &[u8]) -> Header
    requires { 20 ≤ length p.now }
    ensures { result ≡ header_of p.now }
{
    Header {
        length: header_length(p),
        total: length_at(p, 2),
        source: address_at(p, 12),
        destination: address_at(p, 16),
        protocol: p[9],
    }
}

// The header of `p`, whatever it carries, or the first of refusals 6, 20 and 7 that applies.
#[tactic(auto, using(crate::proofs::Whole::whole))]
pub fn read_header(p: &[u8]) -> Result<Header, Fault>
    ensures { result ≡ read_header p.now }
{
    if is_broken(p) {
        return Err(Fault::MalformedHeader);
    }
    if !is_header_valid(p) {
        return Err(Fault::BadChecksum);
    }
    if is_fragment(p) {
        return Err(Fault::Fragment);
    }
    Ok(header_of(p))
}

// The flags in a TCP header's byte 13.
fn flags_of(byte: u8) -> Flags
    ensures { result ≡ flags_of byte }
{
    Flags {
        syn: byte / 2 % 2 == 1,
        ack: byte / 16 % 2 == 1,
        rst: byte / 4 % 2 == 1,
        fin: byte % 2 == 1,
    }
}

// A TCP segment, or refusal 9.
#[tactic(auto, unfolding(crate::specs::Reading::tcp_malformed))]
fn read_tcp(t: &[u8]) -> Result<TransportHeader, Fault>
    ensures { result ≡ read_tcp t.now }
{
    if t.len() < 20 || t[12] / 16 < 5 || t.len() < usize::from(t[12] / 16) * 4 {
        return Err(Fault::MalformedTransport);
    }
    Ok(TransportHeader {
        source: word_at(t, 0),
        destination: word_at(t, 2),
        flags: flags_of(t[13]),
    })
}

// A UDP datagram, or refusal 9.
#[tactic(auto, unfolding(crate::specs::Reading::udp_malformed))]
fn read_udp(t: &[u8]) -> Result<TransportHeader, Fault>
    ensures { result ≡ read_udp t.now }
{
    if t.len() < 8 || length_at(t, 4) != t.len() {
        return Err(Fault::MalformedTransport);
    }
    Ok(TransportHeader {
        source: word_at(t, 0),
        destination: word_at(t, 2),
        flags: Flags::default(),
    })
}

// The transport part, by the service's protocol: 6 is TCP, and the only other is UDP. It stays a number, since the contracts of `read_packet`
// and `redirect_packet` hold for every u8, and the laws of specs/ speak of every number.
fn read_transport(protocol: u8, t: &[u8]) -> Result<TransportHeader, Fault>
    ensures { result ≡ read_transport protocol t.now }
{
    match protocol {
        6 => read_tcp(t),
        _ => read_udp(t),
    }
}

// A packet that no refusal before 9 names, by its header, or refusal 9.
fn read_payload(protocol: u8, header: Header, p: &[u8]) -> Result<Packet, Fault>
    requires { (header.length ≤ header.total) × (header.total ≤ length p.now) }
    ensures { result ≡ read_payload protocol header p.now }
{
    let transport = read_transport(protocol, &p[header.length..header.total])?;
    Ok(Packet {
        header: header.length,
        total: header.total,
        source: header.source,
        destination: header.destination,
        transport,
    })
}

// The packet in `p` for a service of `protocol`, or the first of refusals 6, 20, 7, 8, 9 that applies.
#[tactic(auto, using(crate::proofs::Taken::lengths_read), unfolding(crate::specs::Reading::read_packet))]
pub fn read_packet(protocol: u8, p: &[u8]) -> Result<Packet, Fault>
    ensures { result ≡ read_packet protocol p.now }
{
    let header = read_header(p)?;
    if header.protocol != protocol {
        return Err(Fault::OtherProtocol);
    }
    read_payload(protocol, header, p)
}
