// Packets taken from a descriptor and sent on to it, for C and Rust (include/nidhaaguf.h). It is a crate of its own because it alone calls the C
// library: what is linked for the other calls needs no `read` and `write`.
#![tactic(auto)]

mod serve;

ghost use Rattle.nidhaaguf_serve.specs.Serve.{ServedFrom};

use director::state::Director;
use nidhaaguf::reply::reply_of;
use nidhaaguf::state::State;
use serve::{Serving, serve};

// NidhaagufServed: the state after the packets, the tick's answer, and how many packets there were, 816 bytes.
#[repr(C)]
#[derive(Clone, Copy)]
pub struct Served {
    pub state: State,
    // the tick's: 0 for accepted, else the refusal's number (a number, for C)
    pub refusal: u32,
    // how many connections the tick removed
    pub removed: u32,
    // packets taken, and how many of them were accepted and not sent
    pub taken: u32,
    pub unsent: u32,
}

// Moves the clock on, then takes packets from the descriptor and sends them on to it, each by the call that its destination asks for, until a
// read gives nothing, `most` packets are taken, a record or room for the longest packet is missing, or one is refused with `stop` (a
// number, as C hands it in: any may come).
#[unsafe(no_mangle)]
pub extern "C" fn nidhaaguf_serve(
    descriptor: i32,
    state: State,
    row: &mut [u32],
    buffer: &mut [u8],
    records: &mut [u32],
    counters: &mut [u64; 46],
    clock: u32,
    most: u32,
    stop: u32,
) -> Served
    ensures { ServedFrom state row.old buffer.old records.old counters.old clock most result row.new buffer.new records.new counters.new }
{
    let Serving { outcome, progress } = serve(
        descriptor,
        Director::from(state),
        row,
        buffer,
        records,
        counters,
        clock,
        most,
        stop,
    );
    let reply = reply_of(state.place, outcome);
    Served {
        state: reply.state,
        refusal: reply.refusal,
        removed: reply.number,
        taken: progress.taken,
        unsent: progress.unsent,
    }
}
