// Idle limits, and the removal of idle connections.
ghost use Rattle.std.specs.Prelude.{◌≡◌, true, ◌≤◌, ◌-◌};
ghost use Rattle.lists.specs.Tests.{count_of};
ghost use Rattle.table.specs.Slots.{slots, words};
ghost use Rattle.table.specs.Expire.{idle_limit, limits_at, is_idle, lowered_by};
ghost use Rattle.table.specs.Changes.{idle_removed};
ghost use Rattle.table.specs.Sound.{table_sound};

use crate::change::free_slot;
use crate::slot::{Slot, SlotNo, WORDS, slot_at};
use servers::{Server, lower};

// The idle limit in seconds, by protocol (17 is UDP) and phase. (Both are numbers, as the C interface lends them.)
pub fn idle_limit(protocol: u8, phase: u32) -> u32
    ensures { result ≡ idle_limit protocol phase }
{
    match (protocol, phase) {
        (17, _) => 300,
        (_, 4) => 120,
        _ => 900,
    }
}

// The shortest idle limit in seconds.
const SHORTEST: u32 = 120;

// The idle limits in seconds, and the clock less the shortest of them (or 0): what the loop over the slots compares with. (With a test of
// the protocol in it the compiler writes the loop twice.)
#[derive(Clone, Copy)]
struct Limits {
    // phases 1 to 3
    running: u32,
    // phase 4
    finished: u32,
    recent: u32,
}

impl Limits {
    // The limits of a protocol at a clock.
    fn at(protocol: u8, clock: u32) -> Limits
        ensures { result ≡ limits_at protocol clock }
    {
        Limits {
            running: idle_limit(protocol, 1),
            finished: idle_limit(protocol, 4),
            recent: clock.saturating_sub(SHORTEST),
        }
    }
}

impl Slot {
    // Whether a slot that was not seen after the clock holds an idle connection. (Phases are numbers, as the C interface lends them.)
    fn is_idle(self, protocol: u8, clock: u32, limits: Limits) -> bool
        requires { (self.seen ≤ clock) × (limits ≡ limits_at protocol clock) }
        ensures { result ≡ is_idle protocol clock self }
    {
        let age = clock - self.seen;
        match self.phase {
            0 => false,
            4 => limits.finished <= age,
            _ => limits.running <= age,
        }
    }
}

// Every idle connection is removed from the row, and from its server's count. The answer is how many were removed. (For why n ≤ 64 is asked
// see `number_of` in `servers`.)
pub fn expire(row: &mut [u32], servers: &mut [Server; 64], protocol: u8, n: u32, clock: u32) -> u32
    requires { (n ≤ 64) × (table_sound protocol n clock row.old servers.old ≡ true) }
    ensures row { row.new ≡ words (idle_removed protocol clock (slots row.old)) }
    ensures servers { servers.new ≡ lowered_by (is_idle protocol clock) (slots row.old) servers.old }
    ensures removed { result ≡ count_of (is_idle protocol clock) (slots row.old) }
{
    let limits = Limits::at(protocol, clock);
    let mut removed = 0;
    // By number: of a row that is written through `as_chunks_mut` a proof knows nothing at the end.
    for k in 0..row.len() / WORDS {
        let k = SlotNo(k);
        // Most slots of a busy table were seen within the shortest limit. That word is read first, and alone: where the whole slot is read
        // first, such a slot costs 5 instructions more.
        if slot_at(row, k).seen <= limits.recent {
            let slot = slot_at(row, k);
            if slot.is_idle(protocol, clock, limits) {
                lower(servers, slot.server);
                free_slot(row, k);
                removed += 1;
            }
        }
    }
    removed
}
