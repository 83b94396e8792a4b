// Packets in one lent buffer, taken one after another after a tick: the fold of the single calls.
ghost use Rattle.std.specs.Prelude.{◌≡◌, ◌+◌, ◌*◌, ◌<◌, ◌≤◌, length};
ghost use Rattle.director.specs.State.{left_with};
ghost use Rattle.director.specs.Current.{Current};
ghost use Rattle.serving.specs.Way.{taken_of};
ghost use Rattle.serving.specs.Burst.{packets_in, length_of, recorded, bursting, burst_step, burst_of, burst_result, burst_call_of};

use crate::told::{Told, is_accepted, write_told};
use crate::way::way_of;
use director::packets::take_current;
use director::state::{Answer, Director, Outcome};
use director::tick::tick;

// The bytes of a packet's place, and the words of its record.
const PLACE: usize = 2048;

const RECORD: usize = 4;

// One packet of a current state, by the call that it is given to. (`Current` is asked of state and row, as soundness is: see `settle`.)
fn take_one(director: &mut Director, row: &mut [u32], packet: &mut [u8]) -> Answer
    requires { Current director.old row.old }
    ensures current { Current director.new row.new }
    ensures taken { left_with result director.new row.new packet.new ≡ taken_of director.old row.old packet.old }
{
    let way = way_of(director.service.address, packet);
    take_current(way, director, row, packet)
}

// The length of packet `k`. (A cast to `usize`: a place in a slice.)
fn length_of(records: &[u32], k: usize) -> usize
    requires { 4 * k + 3 < length records.now }
    ensures { result ≡ length_of records.now k }
{
    PLACE.min(records[RECORD * k] as usize)
}

// Takes packet `k`, and writes what it was answered.
fn burst_one(
    director: &mut Director,
    row: &mut [u32],
    packets: &mut [u8],
    records: &mut [u32],
    k: usize,
)
    requires { Current director.old row.old × (4 * k + 3 < length records.old) × (2048 * k + 2048 ≤ length packets.old) }
    ensures current { Current director.new row.new }
    ensures taken { bursting director.new row.new packets.new records.new ≡ burst_step (bursting director.old row.old packets.old records.old) k }
{
    let at = PLACE * k;
    let end = at + length_of(records, k);
    let answer = take_one(director, row, &mut packets[at..end]);
    write_told(records, RECORD * k, Told::from(answer));
}

// How many packets there are.
fn packets_in(packets: &[u8], records: &[u32]) -> usize
    ensures { result ≡ packets_in packets.now records.now }
{
    (packets.len() / PLACE).min(records.len() / RECORD)
}

// Takes all packets.
fn burst_current(director: &mut Director, row: &mut [u32], packets: &mut [u8], records: &mut [u32])
    requires { Current director.old row.old }
    ensures { bursting director.new row.new packets.new records.new ≡ burst_of (bursting director.old row.old packets.old records.old) (packets_in packets.old records.old) }
{
    // by number: of what is written through `chunks_mut` a proof knows the length alone
    for k in 0..packets_in(packets, records) {
        burst_one(director, row, packets, records, k);
    }
}

// Moves the clock on, as a tick does, and takes the packets at that clock. Where the tick is refused nothing is changed.
pub fn burst(
    director: Director,
    row: &mut [u32],
    packets: &mut [u8],
    records: &mut [u32],
    clock: u32,
) -> Outcome
    ensures { burst_result result row.new packets.new records.new ≡ burst_call_of director row.old packets.old records.old clock }
{
    let mut ticked = tick(director, row, clock);
    if is_accepted(ticked.answer) {
        burst_current(&mut ticked.director, row, packets, records);
    }
    ticked
}
