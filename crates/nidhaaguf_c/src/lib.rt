// The calls of `nidhaaguf` under their C names: what libnidhaaguf.a exports (include/nidhaaguf.h). Each has the contract of the call that it
// makes. (All are said again, since a static library exports only functions of its own.)
#![tactic(auto)]

ghost use Rattle.std.specs.Prelude.{◌≡◌, []};
ghost use Rattle.director.specs.Setup.{setup_of};
ghost use Rattle.director.specs.Control.{weight_of, count_call_of};
ghost use Rattle.director.specs.Tick.{tick_of};
ghost use Rattle.director.specs.Packets.{packet_of};
ghost use Rattle.director.specs.declared.state.Way.{Way};
ghost use Rattle.serving.specs.Burst.{burst_call_of};
ghost use Rattle.nidhaaguf.specs.State.{decoded};
ghost use Rattle.nidhaaguf.specs.Reply.{replied, exported};
ghost use Rattle.nidhaaguf.specs.Burst.{burst_replied, burst_exported};

use director::state::Service;
use nidhaaguf::reply::Reply;
use nidhaaguf::state::{Servers, State};

// Sets up the service over the given servers.
#[unsafe(no_mangle)]
pub extern "C" fn nidhaaguf_set_up(
    state: State,
    service: Service,
    servers: Servers,
    row: &mut [u32],
) -> Reply
    ensures { replied result row.new [] ≡ exported state (setup_of (decoded state) service servers.server row.old) }
{
    nidhaaguf::nidhaaguf_set_up(state, service, servers, row)
}

// Sets a server's weight.
#[unsafe(no_mangle)]
pub extern "C" fn nidhaaguf_set_weight(state: State, row: &[u32], number: u32, weight: u16) -> Reply
    ensures { replied result row.now [] ≡ exported state (weight_of (decoded state) row.now number weight) }
{
    nidhaaguf::nidhaaguf_set_weight(state, row, number, weight)
}

// Tells a server's count.
#[unsafe(no_mangle)]
pub extern "C" fn nidhaaguf_count(state: State, row: &[u32], number: u32) -> Reply
    ensures { replied result row.now [] ≡ exported state (count_call_of (decoded state) row.now number) }
{
    nidhaaguf::nidhaaguf_count(state, row, number)
}

// Moves the clock on.
#[unsafe(no_mangle)]
pub extern "C" fn nidhaaguf_tick(state: State, row: &mut [u32], clock: u32) -> Reply
    ensures { replied result row.new [] ≡ exported state (tick_of (decoded state) row.old clock) }
{
    nidhaaguf::nidhaaguf_tick(state, row, clock)
}

// Takes a packet from a client.
#[unsafe(no_mangle)]
pub extern "C" fn nidhaaguf_inbound(
    state: State,
    row: &mut [u32],
    packet: &mut [u8],
    clock: u32,
) -> Reply
    ensures { replied result row.new packet.new ≡ exported state (packet_of Way.Inbound (decoded state) row.old packet.old clock) }
{
    nidhaaguf::nidhaaguf_inbound(state, row, packet, clock)
}

// Takes a packet from a server.
#[unsafe(no_mangle)]
pub extern "C" fn nidhaaguf_outbound(
    state: State,
    row: &mut [u32],
    packet: &mut [u8],
    clock: u32,
) -> Reply
    ensures { replied result row.new packet.new ≡ exported state (packet_of Way.Outbound (decoded state) row.old packet.old clock) }
{
    nidhaaguf::nidhaaguf_outbound(state, row, packet, clock)
}

// Moves the clock on, then takes the packets of a buffer at that clock, each by the call that its destination asks for.
#[unsafe(no_mangle)]
pub extern "C" fn nidhaaguf_burst(
    state: State,
    row: &mut [u32],
    packets: &mut [u8],
    records: &mut [u32],
    clock: u32,
) -> Reply
    ensures { burst_replied result row.new packets.new records.new ≡ burst_exported state (burst_call_of (decoded state) row.old packets.old records.old clock) }
{
    nidhaaguf::nidhaaguf_burst(state, row, packets, records, clock)
}
