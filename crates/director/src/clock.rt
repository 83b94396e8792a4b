// An accepted clock: it is stored, and the connections that are idle at it are removed.
ghost use Rattle.std.specs.Prelude.{◌≡◌, true, ◌≤◌};
ghost use Rattle.lists.specs.Tests.{count_of};
ghost use Rattle.table.specs.Slots.{slots, words};
ghost use Rattle.director.specs.Judge.{sound_of};
ghost use Rattle.director.specs.Tick.{settled, settled_slots, idle_now};

use crate::state::Director;
use table::expire::expire;

// Stores an accepted clock and removes the connections that are idle at it; tells how many they were. (That the state is sound is asked here and
// in each function behind it, of state and row: in a struct of the two, tried, a proof doesn't know what the lent row is in the end.)
pub fn settle(director: &mut Director, row: &mut [u32], clock: u32) -> u32
    requires { (sound_of director.old row.old ≡ true) × (director.old.clock ≤ clock) }
    ensures row { row.new ≡ words (settled_slots director.old (slots row.old) clock) }
    ensures director { director.new ≡ settled director.old (slots row.old) clock }
    ensures removed { result ≡ count_of (idle_now director.old clock) (slots row.old) }
{
    director.clock = clock;
    expire(
        row,
        &mut director.servers,
        director.service.protocol,
        director.service.servers,
        clock,
    )
}
