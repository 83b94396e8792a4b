// One connection's changes in the row: opened, touched by a packet, ended. (Removal of all that are idle: `expire`.)
ghost use Rattle.std.specs.Prelude.{◌≡◌, ◌<◌, ◌/◌, length};
ghost use Rattle.table.specs.Slots.{words_per_slot, slots, words, IsRow};
ghost use Rattle.table.specs.Changes.{opened, touched, freed};

use crate::slot::{Slot, SlotNo, put_slot, slot_at};
use servers::ServerNo;

// A connection of this client with server `no` is opened in slot `k`.
pub fn open_slot(row: &mut [u32], k: SlotNo, address: u32, port: u16, no: ServerNo, clock: u32)
    requires { IsRow row.old × (k.0 < length row.old / words_per_slot) }
    ensures { row.new ≡ words (opened (slots row.old) k.0 address port no.0 clock) }
{
    let slot = Slot {
        phase: 1,
        address,
        port: u32::from(port),
        server: no,
        seen: clock,
    };
    put_slot(row, k, slot);
}

// The connection in slot `k` is in this phase after a packet of it.
pub fn touch_slot(row: &mut [u32], k: SlotNo, phase: u32, clock: u32)
    requires { IsRow row.old × (k.0 < length row.old / words_per_slot) }
    ensures { row.new ≡ words (touched (slots row.old) k.0 phase clock) }
{
    let slot = Slot {
        phase,
        seen: clock,
        ..slot_at(row, k)
    };
    put_slot(row, k, slot);
}

// The connection in slot `k` is ended: the slot becomes free.
pub fn free_slot(row: &mut [u32], k: SlotNo)
    requires { IsRow row.old × (k.0 < length row.old / words_per_slot) }
    ensures { row.new ≡ words (freed (slots row.old) k.0) }
{
    put_slot(row, k, Slot::FREE);
}
