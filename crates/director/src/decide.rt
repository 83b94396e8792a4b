// What is to become of a packet that got past 11: refusals 12 to 14, or a connection kept, ended, opened or renewed. Nothing is changed here.
ghost use Rattle.std.specs.Prelude.{◌≡◌, ◌<◌, ◌≤◌, ◌/◌, length, true};
ghost use Rattle.servers.specs.Servers.{count_at};
ghost use Rattle.table.specs.Slots.{words_per_slot, slots, slot_at};
ghost use Rattle.director.specs.Judge.{sound_of};
ghost use Rattle.director.specs.Decide.{is_syn, opens, belongs, next_pick, on_weights, renews, on_renewal, on_present, on_absent, decided};
ghost use Rattle.director.specs.declared.decide.Decision.{Decision};

use crate::segment::{Segment, Sender};
use crate::state::{Director, Refusal, TCP, with_one_less};
use packet::read::Flags;
use scheduler::pick;
use scheduler::walk::{Pick, Walk};
use scheduler::weights::none_weighs;
use servers::ServerNo;
use table::find::{find_client, find_free, find_free_with};
use table::slot::{SlotNo, slot_at};

// What is to become of a packet: its refusal, or its connection's slot and, where one opens, the server and the walk after the pick; where
// one opens as another ends, that one's slot first. (Not a `Result`: each function here ends with a case, so that no `?` would be
// served, and each other case would stand in an `Ok`.)
#[derive(Clone, Copy)]
pub enum Decision {
    Refuse(Refusal),
    Keep(SlotNo),
    End(SlotNo),
    Open(SlotNo, ServerNo, Walk),
    Renew(SlotNo, SlotNo, ServerNo, Walk),
}

// SYN set and ACK, RST, FIN clear.
fn is_syn(flags: Flags) -> bool
    ensures { result ≡ is_syn flags }
{
    matches!(
        flags,
        Flags {
            syn: true,
            ack: false,
            rst: false,
            fin: false
        }
    )
}

// Whether a packet opens a connection where its client has none. (A number, as the service has it: see `Service`.)
fn opens_connection(protocol: u8, segment: Segment) -> bool
    ensures { result ≡ opens protocol segment }
{
    match (segment.sender, protocol) {
        (Sender::Server(_), _) => false,
        (Sender::Client, TCP) => is_syn(segment.flags),
        (Sender::Client, _) => true,
    }
}

// Whether a packet belongs to a connection of its client with server `no`.
fn belongs_to(sender: Sender, no: ServerNo) -> bool
    ensures { result ≡ belongs sender no }
{
    match sender {
        Sender::Client => true,
        Sender::Server(source) => source == no,
    }
}

// Whether a packet ends a connection in that phase and opens a new one: TCP's 4 and an opening (UDP is never in phase 4). (A
// number, as the lent row has it.)
fn renews_connection(segment: Segment, phase: u32) -> bool
    ensures { result ≡ renews segment phase }
{
    match phase {
        4 => opens_connection(TCP, segment),
        _ => false,
    }
}

// The server that is next, by the scheduler.
fn next_pick(director: &Director) -> Pick
    ensures { result ≡ next_pick director.now }
{
    pick(
        director.service.scheduler,
        &director.servers,
        director.service.servers,
        director.weights,
        director.walk,
    )
}

// A packet that would open a connection in the free slot `k`: 14 is tested before the pick, so the walk is not moved by it.
fn decide_free(director: &Director, k: SlotNo) -> Decision
    ensures { result ≡ on_weights director.now (Decision.Open k) }
{
    if none_weighs(director.weights) {
        return Decision::Refuse(Refusal::NoWeight);
    }
    let Pick { server, walk } = next_pick(director);
    Decision::Open(k, server, walk)
}

// A packet that would open a connection where the finished one in slot `k` ends: its slot counts as free, its server has one less.
fn decide_renewal(director: &Director, row: &[u32], k: SlotNo) -> Decision
    requires within { k.0 < length row.now / words_per_slot }
    requires counted { 1 ≤ count_at director.now.servers (slot_at row.now k.0).server.0 }
    ensures { result ≡ on_renewal director.now (slots row.now) k }
{
    let free = find_free_with(row, k);
    if none_weighs(director.weights) {
        return Decision::Refuse(Refusal::NoWeight);
    }
    let mut ended = *director;
    with_one_less(&mut ended, slot_at(row, k).server);
    let Pick { server, walk } = next_pick(&ended);
    Decision::Renew(k, free, server, walk)
}

// A packet whose client has a connection, in slot `k`.
fn decide_present(director: &Director, row: &[u32], segment: Segment, k: SlotNo) -> Decision
    requires sound { sound_of director.now row.now ≡ true }
    requires within { k.0 < length row.now / words_per_slot }
    ensures { result ≡ on_present director.now (slots row.now) segment k (slot_at row.now k.0) }
{
    let slot = slot_at(row, k);
    if !belongs_to(segment.sender, slot.server) {
        return Decision::Refuse(Refusal::NoConnection);
    }
    if renews_connection(segment, slot.phase) {
        return decide_renewal(director, row, k);
    }
    match segment.flags.rst {
        true => Decision::End(k),
        false => Decision::Keep(k),
    }
}

// A packet whose client has no connection.
fn decide_absent(director: &Director, row: &[u32], segment: Segment) -> Decision
    ensures { result ≡ on_absent director.now (slots row.now) segment }
{
    if !opens_connection(director.service.protocol, segment) {
        return Decision::Refuse(Refusal::NoConnection);
    }
    match find_free(row) {
        None => Decision::Refuse(Refusal::TableFull),
        Some(k) => decide_free(director, k),
    }
}

// Refusals 12 to 14 in their order, or what becomes of the packet's connection.
#[tactic(auto, unfolding(crate::specs::Decide::decided))]
pub fn decide(director: &Director, row: &[u32], segment: Segment) -> Decision
    requires { sound_of director.now row.now ≡ true }
    ensures { result ≡ decided director.now (slots row.now) segment }
{
    match find_client(row, segment.address, segment.port) {
        Some(k) => decide_present(director, row, segment, k),
        None => decide_absent(director, row, segment),
    }
}
