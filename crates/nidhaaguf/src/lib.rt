// The director's six calls and the burst for C and Rust: the state by value as plain numbers (include/nidhaaguf.h), row and packets lent.
// `nidhaaguf_c` exports them.
// Each call decodes the state, calls the director and replies in numbers (SCOPE section 4). No call requires anything of its arguments. (Packets
// have a function for each way, since C has a name for each.)
#![tactic(auto)]

pub mod reply;
pub mod state;

ghost use Rattle.std.specs.Prelude.{◌≡◌, []};
ghost use Rattle.director.specs.Setup.{setup_of};
ghost use Rattle.director.specs.Control.{weight_of, count_call_of};
ghost use Rattle.director.specs.Tick.{tick_of};
ghost use Rattle.director.specs.Packets.{packet_of};
ghost use Rattle.director.specs.declared.state.Way.{Way};
ghost use Rattle.serving.specs.Burst.{burst_call_of};
ghost use Rattle.nidhaaguf.specs.State.{decoded};
ghost use Rattle.nidhaaguf.specs.Reply.{replied, exported};
ghost use Rattle.nidhaaguf.specs.Burst.{burst_replied, burst_exported};

use director::control::{count, set_weight};
use director::packets::take_packet;
use director::setup::set_up;
use director::state::{Director, Service, Way};
use director::tick::tick;
use reply::{Reply, reply_of};
use servers::ServerNo;
use serving::burst::burst;
use state::{Servers, State};

// Sets up the service over the given servers.
pub fn nidhaaguf_set_up(state: State, service: Service, servers: Servers, row: &mut [u32]) -> Reply
    ensures { replied result row.new [] ≡ exported state (setup_of (decoded state) service servers.server row.old) }
{
    reply_of(
        state.place,
        set_up(Director::from(state), service, servers.server, row),
    )
}

// Sets a server's weight.
pub fn nidhaaguf_set_weight(state: State, row: &[u32], number: u32, weight: u16) -> Reply
    ensures { replied result row.now [] ≡ exported state (weight_of (decoded state) row.now number weight) }
{
    reply_of(
        state.place,
        set_weight(Director::from(state), row, ServerNo(number), weight),
    )
}

// Tells a server's count.
pub fn nidhaaguf_count(state: State, row: &[u32], number: u32) -> Reply
    ensures { replied result row.now [] ≡ exported state (count_call_of (decoded state) row.now number) }
{
    reply_of(
        state.place,
        count(Director::from(state), row, ServerNo(number)),
    )
}

// Moves the clock on.
pub fn nidhaaguf_tick(state: State, row: &mut [u32], clock: u32) -> Reply
    ensures { replied result row.new [] ≡ exported state (tick_of (decoded state) row.old clock) }
{
    reply_of(state.place, tick(Director::from(state), row, clock))
}

// Takes a packet from a client.
pub fn nidhaaguf_inbound(state: State, row: &mut [u32], packet: &mut [u8], clock: u32) -> Reply
    ensures { replied result row.new packet.new ≡ exported state (packet_of Way.Inbound (decoded state) row.old packet.old clock) }
{
    reply_of(
        state.place,
        take_packet(Way::Inbound, Director::from(state), row, packet, clock),
    )
}

// Takes a packet from a server.
pub fn nidhaaguf_outbound(state: State, row: &mut [u32], packet: &mut [u8], clock: u32) -> Reply
    ensures { replied result row.new packet.new ≡ exported state (packet_of Way.Outbound (decoded state) row.old packet.old clock) }
{
    reply_of(
        state.place,
        take_packet(Way::Outbound, Director::from(state), row, packet, clock),
    )
}

// Moves the clock on, then takes the packets of a buffer at that clock, each by the call that its destination asks for.
pub fn nidhaaguf_burst(
    state: State,
    row: &mut [u32],
    packets: &mut [u8],
    records: &mut [u32],
    clock: u32,
) -> Reply
    ensures { burst_replied result row.new packets.new records.new ≡ burst_exported state (burst_call_of (decoded state) row.old packets.old records.old clock) }
{
    reply_of(
        state.place,
        burst(Director::from(state), row, packets, records, clock),
    )
}
