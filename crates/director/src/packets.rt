// The packet calls: 15, 6, 20, 7 to 11, then 12 to 14.
ghost use Rattle.std.specs.Prelude.{◌≡◌, true};
ghost use Rattle.packet.specs.Redirect.{Redirectable};
ghost use Rattle.table.specs.Slots.{slots};
ghost use Rattle.director.specs.State.{lent, left_with, result_of, in_words};
ghost use Rattle.director.specs.Judge.{sound_of};
ghost use Rattle.director.specs.Packets.{routed, packet_held, packet_of};
ghost use Rattle.director.specs.Current.{Current};
ghost use Rattle.director.specs.declared.state.Way.{Way};

use crate::carry::carry_out;
use crate::clock::settle;
use crate::decide::decide;
use crate::judge::is_sound;
use crate::segment::{Segment, read_segment};
use crate::state::{Answer, Director, Outcome, Refusal, Way, refuse};

// A packet that got past 11: its refusal, 12 to 14, or what becomes of its connection. (Not inlined: `serve` calls it at one place alone, and in
// the one large function that all would become there the search takes an instruction more a slot.)
#[inline(never)]
#[tactic(auto, unfolding(crate::specs::Packets::routed))]
fn route(director: &mut Director, row: &mut [u32], packet: &mut [u8], segment: Segment) -> Answer
    requires { (sound_of director.old row.old ≡ true) × Redirectable director.old.service.protocol packet.old }
    ensures { left_with result director.new row.new packet.new ≡ in_words (routed director.old (lent (slots row.old) packet.old) segment) }
{
    let decision = decide(director, row, segment);
    carry_out(director, row, packet, segment, decision)
}

// A packet call of a sound state.
fn packet_sound(
    way: Way,
    director: &mut Director,
    row: &mut [u32],
    packet: &mut [u8],
    clock: u32,
) -> Answer
    requires { sound_of director.old row.old ≡ true }
    ensures { left_with result director.new row.new packet.new ≡ in_words (packet_held way director.old (lent (slots row.old) packet.old) clock) }
{
    match read_segment(way, director, packet) {
        Err(why) => Answer::Refused(why),
        Ok(_) if clock < director.clock => Answer::Refused(Refusal::EarlierClock),
        Ok(segment) => {
            settle(director, row, clock);
            route(director, row, packet, segment)
        }
    }
}

// A packet call of a current state at its clock: there is nothing to judge and nothing to remove.
pub fn take_current(way: Way, director: &mut Director, row: &mut [u32], packet: &mut [u8]) -> Answer
    requires { Current director.old row.old }
    ensures { left_with result director.new row.new packet.new ≡ packet_of way director.old row.old packet.old director.old.clock }
{
    match read_segment(way, director, packet) {
        Err(why) => Answer::Refused(why),
        Ok(segment) => route(director, row, packet, segment),
    }
}

// A packet call, either way: 15 where the state handed in is not sound.
#[tactic(auto, unfolding(crate::specs::Packets::packet_of))]
pub fn take_packet(
    way: Way,
    mut director: Director,
    row: &mut [u32],
    packet: &mut [u8],
    clock: u32,
) -> Outcome
    ensures { result_of result row.new packet.new ≡ packet_of way director row.old packet.old clock }
{
    if !is_sound(&director, row) {
        return refuse(director, Refusal::Unsound);
    }
    let answer = packet_sound(way, &mut director, row, packet, clock);
    Outcome { answer, director }
}

// Takes a packet from a client. (This and the next are the calls' names in the rules and the documents, each `take_packet` with a way.)
pub fn inbound(director: Director, row: &mut [u32], packet: &mut [u8], clock: u32) -> Outcome
    ensures { result_of result row.new packet.new ≡ packet_of Way.Inbound director row.old packet.old clock }
{
    take_packet(Way::Inbound, director, row, packet, clock)
}

// Takes a packet from a server.
pub fn outbound(director: Director, row: &mut [u32], packet: &mut [u8], clock: u32) -> Outcome
    ensures { result_of result row.new packet.new ≡ packet_of Way.Outbound director row.old packet.old clock }
{
    take_packet(Way::Outbound, director, row, packet, clock)
}
