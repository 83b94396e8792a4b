// Packets taken from a descriptor and sent back to it.
ghost use Rattle.std.specs.Prelude.{◌≡◌, false, ℕ, ◌+◌, ◌*◌, ◌<◌, ◌≤◌, List, [], ◌++◌, length, take, IfNone, IfSome};
ghost use Rattle.director.specs.State.{is_accepted, left_with};
ghost use Rattle.director.specs.Tick.{tick_of};
ghost use Rattle.director.specs.Current.{Current};
ghost use Rattle.serving.specs.Told.{told_by};
ghost use Rattle.serving.specs.Way.{way_of, taken_of};
ghost use Rattle.serving.specs.Counters.{counted};
ghost use Rattle.serving.specs.Trace.{traced, packets_traced};
ghost use Rattle.serving.specs.Serve.{standing, Served, packets_after, after_tick};

use director::packets::take_current;
use director::state::{Answer, Director, Outcome};
use director::tick::tick;
use serving::counters::count_answer;
use serving::told::{Told, is_accepted};
use serving::trace::{packets_traced, write_trace};
use serving::way::way_of;

// Packet `k` of a current state: the call that it is given to, and the answer counted and told. (State, row, records and counters go one by one:
// in a struct of what is lent, tried, a proof doesn't know what they are in the end.)
fn take_told(
    director: &mut Director,
    row: &mut [u32],
    packet: &mut [u8],
    records: &mut [u32],
    k: usize,
    counters: &mut [u64; 46],
) -> Answer
    requires { Current director.old row.old × (5 * k + 4 < length records.old) }
    ensures taken { left_with result director.new row.new packet.new ≡ taken_of director.old row.old packet.old }
    ensures counters { counters.new ≡ counted counters.old (way_of director.old.service.address packet.old) result }
    ensures records { records.new ≡ traced records.old k (length packet.old) (way_of director.old.service.address packet.old) (told_by result) }
{
    let n = packet.len();
    let way = way_of(director.service.address, packet);
    let answer = take_current(way, director, row, packet);
    count_answer(counters, way, answer);
    write_trace(records, k, n, way, Told::from(answer));
    answer
}

// Sends an accepted packet on; tells whether the device did not take it.
fn is_unsent(descriptor: i32, packet: &[u8], answer: Answer) -> bool {
    is_accepted(answer) && libc::write(descriptor, packet) < 0
}

// What became of a packet that was read.
#[derive(Clone, Copy)]
struct Exchange {
    // accepted and not sent
    unsent: bool,
    // where it ends in what was lent for it
    end: usize,
    answer: Answer,
}

// Serves packet `k`.
fn serve_packet(
    descriptor: i32,
    director: &mut Director,
    row: &mut [u32],
    packet: &mut [u8],
    records: &mut [u32],
    k: usize,
    counters: &mut [u64; 46],
) -> Exchange
    requires { Current director.old row.old × (5 * k + 4 < length records.old) }
    ensures end { (result.end ≡ length packet.old) × (result.end ≡ length packet.new) }
    ensures served { ((before : List ℕ) → Served (standing director.old row.old counters.old records.old k before) (standing director.new row.new counters.new records.new (k + 1) (before ++ packet.new)) 1) }
{
    let answer = take_told(director, row, packet, records, k, counters);
    Exchange {
        unsent: is_unsent(descriptor, packet, answer),
        end: packet.len(),
        answer,
    }
}

// Reads a packet, if there is one, and serves it as packet `k`.
fn turn(
    descriptor: i32,
    director: &mut Director,
    row: &mut [u32],
    buffer: &mut [u8],
    records: &mut [u32],
    k: usize,
    counters: &mut [u64; 46],
) -> Option<Exchange>
    requires { Current director.old row.old × (5 * k + 4 < length records.old) }
    ensures none { IfNone result (standing director.new row.new counters.new records.new k [] ≡ standing director.old row.old counters.old records.old k []) }
    ensures end { IfSome result (λ done. done.end ≤ length buffer.old) }
    ensures served { IfSome result (λ done. (before : List ℕ) → Served (standing director.old row.old counters.old records.old k before) (standing director.new row.new counters.new records.new (k + 1) (before ++ take done.end buffer.new)) 1) }
{
    let n = io::count(libc::read(descriptor, buffer), buffer);
    if n == 0 {
        return None;
    }
    Some(serve_packet(
        descriptor,
        director,
        row,
        &mut buffer[..n],
        records,
        k,
        counters,
    ))
}

// The same with the buffer from place `at` on.
fn turn_from(
    descriptor: i32,
    director: &mut Director,
    row: &mut [u32],
    buffer: &mut [u8],
    at: usize,
    records: &mut [u32],
    k: usize,
    counters: &mut [u64; 46],
) -> Option<Exchange>
    requires { Current director.old row.old × (5 * k + 4 < length records.old) × (at ≤ length buffer.old) }
    ensures none { IfNone result (standing director.new row.new counters.new records.new k (take at buffer.new) ≡ standing director.old row.old counters.old records.old k (take at buffer.old)) }
    ensures end { IfSome result (λ done. done.end ≤ length buffer.old) }
    ensures served { IfSome result (λ done. Served (standing director.old row.old counters.old records.old k (take at buffer.old)) (standing director.new row.new counters.new records.new (k + 1) (take done.end buffer.new)) 1) }
{
    let done = turn(
        descriptor,
        director,
        row,
        &mut buffer[at..],
        records,
        k,
        counters,
    )?;
    Some(Exchange {
        end: at + done.end,
        ..done
    })
}

// Room for the longest packet.
const LONGEST: usize = 65536;

// Whether no packet is to be read after one: less room is left than the longest packet takes, or it was refused so that the caller wants to
// know at once.
fn is_last(left: usize, answer: Answer, stop: u32) -> bool {
    left < LONGEST || stop != 0 && Told::from(answer).refusal == stop
}

// What many reads came to: the packets taken, how many of them were accepted and not sent, and where the last one ends.
#[derive(Clone, Copy)]
pub struct Progress {
    pub taken: u32,
    pub unsent: u32,
    pub end: usize,
}

impl Progress {
    // No packet yet.
    const NONE: Progress = Progress {
        taken: 0,
        unsent: 0,
        end: 0,
    };
}

// Serves a current state until a read gives nothing, `most` packets are taken, a record or room is missing, or one is refused with
// `stop`. Each packet is read behind the one before. (By number, which a record is written at: of what is
// written through `chunks_mut` a proof knows the length alone. `at` keeps the call in one line.)
fn serve_current(
    descriptor: i32,
    director: &mut Director,
    row: &mut [u32],
    buffer: &mut [u8],
    records: &mut [u32],
    counters: &mut [u64; 46],
    most: u32,
    stop: u32,
) -> Progress
    requires { Current director.old row.old }
    ensures few { (result.taken ≤ packets_traced records.old most) × (result.unsent ≤ result.taken) }
    ensures served { Served (standing director.old row.old counters.old records.old 0 []) (standing director.new row.new counters.new records.new result.taken (take result.end buffer.new)) result.taken }
{
    let mut progress = Progress::NONE;
    for k in 0..packets_traced(records, most) {
        let at = progress.end;
        let Some(done) = turn_from(
            descriptor, director, row, buffer, at, records, k as usize, counters,
        ) else {
            break;
        };
        progress.taken = k + 1;
        progress.unsent += u32::from(done.unsent);
        progress.end = done.end;
        if is_last(buffer.len() - done.end, done.answer, stop) {
            break;
        }
    }
    progress
}

// What serving came to: the tick's answer, with the state after the packets, and these.
#[derive(Clone, Copy)]
pub struct Serving {
    pub outcome: Outcome,
    pub progress: Progress,
}

// Moves the clock on, as a tick does, and then serves packets at that clock, as single calls one after another would. Where the
// tick is refused no packet is read.
pub fn serve(
    descriptor: i32,
    director: Director,
    row: &mut [u32],
    buffer: &mut [u8],
    records: &mut [u32],
    counters: &mut [u64; 46],
    clock: u32,
    most: u32,
    stop: u32,
) -> Serving
    ensures answer { result.outcome.answer ≡ (tick_of director row.old clock).answer }
    ensures unread { (is_accepted result.outcome.answer ≡ false → buffer.new ≡ buffer.old) }
    ensures few { (result.progress.taken ≤ packets_after result.outcome.answer (packets_traced records.old most)) × (result.progress.unsent ≤ result.progress.taken) }
    ensures served { Served (after_tick director row.old counters.old records.old clock) (standing result.outcome.director row.new counters.new records.new result.progress.taken (take result.progress.end buffer.new)) result.progress.taken }
{
    let mut outcome = tick(director, row, clock);
    let mut progress = Progress::NONE;
    if is_accepted(outcome.answer) {
        progress = serve_current(
            descriptor,
            &mut outcome.director,
            row,
            buffer,
            records,
            counters,
            most,
            stop,
        );
    }
    Serving { outcome, progress }
}
