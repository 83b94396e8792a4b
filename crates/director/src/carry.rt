// What was decided of a packet, carried out on state, row and packet. (These go one by one, with the segment: see `settle` for why not in one
// struct.)
ghost use Rattle.std.specs.Prelude.{◌≡◌, ◌<◌, ◌≤◌, ◌/◌, length};
ghost use Rattle.servers.specs.Servers.{count_at};
ghost use Rattle.packet.specs.Redirect.{Redirectable};
ghost use Rattle.table.specs.Slots.{words_per_slot, slots, words, slot_at, IsRow};
ghost use Rattle.table.specs.Changes.{freed};
ghost use Rattle.director.specs.State.{with_one_less, lent, left_with, in_words};
ghost use Rattle.director.specs.declared.state.Answer.{Answer};
ghost use Rattle.director.specs.Carry.{phase_of, sent_on, forwarded, kept_held, ended_held, opened_held, renewed_held, carried_out, Ready, EndReady, OpenReady, Feasible};

use crate::decide::Decision;
use crate::segment::{Segment, Sender};
use crate::state::{Answer, Change, Director, Service, with_one_less, with_one_more};
use packet::redirect::{Side, redirect_packet};
use scheduler::walk::Walk;
use servers::{Server, ServerNo, server_at};
use table::change::{free_slot, open_slot, touch_slot};
use table::slot::{SlotNo, slot_at};

// The phase after a packet of a connection. (Phases are numbers: words of the lent row.)
fn phase_after(phase: u32, fin: bool, sender: Sender) -> u32
    ensures { result ≡ phase_of phase fin sender }
{
    match (fin, sender, phase) {
        (true, Sender::Client, 1) => 2,
        (true, Sender::Client, 3) => 4,
        (true, Sender::Server(_), 1) => 3,
        (true, Sender::Server(_), 2) => 4,
        _ => phase,
    }
}

// Sends a packet on: a client's to the server, a server's to its client.
fn forward(packet: &mut [u8], service: Service, server: Server, sender: Sender)
    requires { Redirectable service.protocol packet.old }
    ensures { packet.new ≡ sent_on service server packet.old sender }
{
    let (side, address, port) = match sender {
        Sender::Client => (Side::Destination, server.address, server.port),
        Sender::Server(_) => (Side::Source, service.address, service.port),
    };
    redirect_packet(packet, service.protocol, side, address, port);
}

// An accepted packet of server `no`.
fn pass(
    director: &Director,
    packet: &mut [u8],
    segment: Segment,
    no: ServerNo,
    change: Change,
) -> Answer
    requires { Redirectable director.now.service.protocol packet.old }
    ensures packet { packet.new ≡ forwarded director.now no.0 packet.old segment.sender }
    ensures answer { result ≡ Answer.Passed no change }
{
    let server = server_at(&director.servers, no);
    forward(packet, director.service, server, segment.sender);
    Answer::Passed(no, change)
}

// The packet's connection, in slot `k`, is kept.
fn keep(
    director: &Director,
    row: &mut [u32],
    packet: &mut [u8],
    segment: Segment,
    k: SlotNo,
) -> Answer
    requires { Ready director.now row.old packet.old k.0 }
    ensures { left_with result director.now row.new packet.new ≡ in_words (kept_held director.now (lent (slots row.old) packet.old) segment k.0) }
{
    let slot = slot_at(row, k);
    let phase = phase_after(slot.phase, segment.flags.fin, segment.sender);
    touch_slot(row, k, phase, director.clock);
    pass(director, packet, segment, slot.server, Change::Kept)
}

// The connection in slot `k` is ended; tells the server that it was with.
fn close(director: &mut Director, row: &mut [u32], k: SlotNo) -> ServerNo
    requires place { IsRow row.old × (k.0 < length row.old / words_per_slot) }
    requires counted { 1 ≤ count_at director.old.servers (slot_at row.old k.0).server.0 }
    ensures server { result ≡ (slot_at row.old k.0).server }
    ensures row { row.new ≡ words (freed (slots row.old) k.0) }
    ensures director { director.new ≡ with_one_less director.old (slot_at row.old k.0).server.0 }
{
    let no = slot_at(row, k).server;
    free_slot(row, k);
    with_one_less(director, no);
    no
}

// The packet's connection, in slot `k`, is ended.
fn end(
    director: &mut Director,
    row: &mut [u32],
    packet: &mut [u8],
    segment: Segment,
    k: SlotNo,
) -> Answer
    requires { EndReady director.old row.old packet.old k.0 }
    ensures { left_with result director.new row.new packet.new ≡ in_words (ended_held director.old (lent (slots row.old) packet.old) segment k.0) }
{
    let no = close(director, row, k);
    pass(director, packet, segment, no, Change::Ended)
}

// A connection of the packet's client to server `no` is opened in slot `k`.
fn open(
    director: &mut Director,
    row: &mut [u32],
    packet: &mut [u8],
    segment: Segment,
    k: SlotNo,
    no: ServerNo,
    walk: Walk,
) -> Answer
    requires { OpenReady director.old row.old packet.old k.0 no.0 }
    ensures { left_with result director.new row.new packet.new ≡ in_words (opened_held director.old (lent (slots row.old) packet.old) segment k.0 no walk) }
{
    open_slot(row, k, segment.address, segment.port, no, director.clock);
    with_one_more(director, no, walk);
    pass(director, packet, segment, no, Change::Opened)
}

// The connection in slot `old` ends, and one of the packet's client to server `no` is opened in slot `k`.
fn renew(
    director: &mut Director,
    row: &mut [u32],
    packet: &mut [u8],
    segment: Segment,
    old: SlotNo,
    k: SlotNo,
    no: ServerNo,
    walk: Walk,
) -> Answer
    requires end_ready { EndReady director.old row.old packet.old old.0 }
    requires open_ready { OpenReady (with_one_less director.old (slot_at row.old old.0).server.0) (words (freed (slots row.old) old.0)) packet.old k.0 no.0 }
    ensures { left_with result director.new row.new packet.new ≡ in_words (renewed_held director.old (lent (slots row.old) packet.old) segment old.0 k.0 no walk) }
{
    close(director, row, old);
    open(director, row, packet, segment, k, no, walk)
}

// Carries out what was decided of a packet.
pub fn carry_out(
    director: &mut Director,
    row: &mut [u32],
    packet: &mut [u8],
    segment: Segment,
    decision: Decision,
) -> Answer
    requires { Feasible director.old row.old packet.old decision }
    ensures { left_with result director.new row.new packet.new ≡ in_words (carried_out director.old (lent (slots row.old) packet.old) segment decision) }
{
    match decision {
        Decision::Refuse(why) => Answer::Refused(why),
        Decision::Keep(k) => keep(director, row, packet, segment, k),
        Decision::End(k) => end(director, row, packet, segment, k),
        Decision::Open(k, no, walk) => open(director, row, packet, segment, k, no, walk),
        Decision::Renew(old, k, no, walk) => {
            renew(director, row, packet, segment, old, k, no, walk)
        }
    }
}
