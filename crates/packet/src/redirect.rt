// Redirects a packet in place: sets one side's address and port, and edits both checksums (RFC 1624).
ghost use Rattle.std.specs.Prelude.{◌≡◌, ◌+◌, ◌<◌, ◌≤◌, length};
ghost use Rattle.packet.specs.Redirect.{address_place, port_place, edited_address, header_edited, sum_place, udp_written, sum_written, transport_edited, redirected, Redirectable};

use crate::bytes::{address_at, header_length, length_at, set_address, set_word};
use checksum::{edit, word_at};

// Which address and port of a packet: those it comes from, or those it goes to.
#[derive(Clone, Copy)]
pub enum Side {
    Source,
    Destination,
}

impl Side {
    // Where the side's address stands in the IP header.
    fn address_place(self) -> usize
        ensures { result ≡ address_place self }
    {
        match self {
            Side::Source => 12,
            Side::Destination => 16,
        }
    }

    // Where the side's port stands in the transport part.
    fn port_place(self) -> usize
        ensures { result ≡ port_place self }
    {
        match self {
            Side::Source => 0,
            Side::Destination => 2,
        }
    }
}

// Where the checksum stands in the transport part, 6 being TCP. The protocol stays a number, as in `read_transport`: the contract of
// `redirect_packet` holds for every u8.
fn sum_place(protocol: u8) -> usize
    ensures { result ≡ sum_place protocol }
{
    match protocol {
        6 => 16,
        _ => 6,
    }
}

// UDP's checksum to write for an edited one: none stays none, and 0 is written FFFF.
fn udp_written(sum: u16, edited: u16) -> u16
    ensures { result ≡ udp_written sum edited }
{
    match (sum, edited) {
        (0, _) => 0,
        (_, 0) => 65535,
        _ => edited,
    }
}

// The transport checksum to write for an edited one.
#[tactic(auto, unfolding(crate::specs::Redirect::sum_written))]
fn sum_written(protocol: u8, sum: u16, edited: u16) -> u16
    ensures { result ≡ sum_written protocol sum edited }
{
    match protocol {
        6 => edited,
        _ => udp_written(sum, edited),
    }
}

// A checksum for an address that changes from `old` to `new`. (Halves by arithmetic, as the definition has them; the proof shows that an `as u16`
// loses nothing.)
fn edit_address(sum: u16, old: u32, new: u32) -> u16
    ensures { result ≡ edited_address sum old new }
{
    let first = edit(sum, (old / 65536) as u16, (new / 65536) as u16);
    edit(first, (old % 65536) as u16, (new % 65536) as u16)
}

// Sets the address at `at`, and edits the header checksum for it.
#[tactic(auto, unfolding(crate::specs::Redirect::header_edited))]
fn edit_header(p: &mut [u8], at: usize, new: u32)
    requires { (20 ≤ length p.old) × (at + 3 < length p.old) }
    ensures { p.new ≡ header_edited at new p.old }
{
    let old = address_at(p, at);
    set_word(p, 10, edit_address(word_at(p, 10), old, new));
    set_address(p, at, new);
}

// Sets the port at `at` of a transport part, and edits its checksum for that and for the address.
#[tactic(auto, unfolding(crate::specs::Redirect::transport_edited))]
fn edit_transport(t: &mut [u8], protocol: u8, at: usize, old: u32, new: u32, port: u16)
    requires { (at + 1 < length t.old) × (sum_place protocol + 1 < length t.old) }
    ensures { t.new ≡ transport_edited protocol at old new port t.old }
{
    let place = sum_place(protocol);
    let sum = word_at(t, place);
    let edited = edit(edit_address(sum, old, new), word_at(t, at), port);
    set_word(t, at, port);
    set_word(t, place, sum_written(protocol, sum, edited));
}

// Sets one side's address and port of a packet that was taken, and edits both checksums. (`Redirectable` is asked as a fact, here and above: a
// type for it would have to hold again after each byte that is written.)
#[tactic(auto, unfolding(crate::specs::Redirect::redirected))]
pub fn redirect_packet(p: &mut [u8], protocol: u8, side: Side, address: u32, port: u16)
    requires { Redirectable protocol p.old }
    ensures { p.new ≡ redirected protocol side address port p.old }
{
    let payload = header_length(p)..length_at(p, 2);
    let at = side.address_place();
    let old = address_at(p, at);
    edit_header(p, at, address);
    edit_transport(
        &mut p[payload],
        protocol,
        side.port_place(),
        old,
        address,
        port,
    );
}
