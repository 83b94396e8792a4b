// Searches in the row: the lowest used slot of a client, the lowest free slot, and that where a used one counts as free.
ghost use Rattle.std.specs.Prelude.{◌≡◌, ◌<◌, ◌/◌, length, position};
ghost use Rattle.table.specs.Slots.{words_per_slot, slots, slot_of_words, is_unused};
ghost use Rattle.table.specs.Find.{of_client, first_from};
ghost use Rattle.table.specs.Changes.{freed};

use crate::slot::{Slot, SlotNo, WORDS, slot_at, slots_of};

impl Slot {
    // Whether this is a used slot of a client. A client host's connections share its address but not their ports, so the port is
    // compared first: most slots need no second comparison.
    fn is_of(self, address: u32, port: u16) -> bool
        ensures { result ≡ of_client address port self }
    {
        self.port == u32::from(port) && self.address == address && self.phase != 0
    }
}

// The lowest used slot of a client. Two slots a turn, since that is faster: 4 instructions a slot, where one search over the slots, as in
// `find_free`, takes 6.
pub fn find_client(row: &[u32], address: u32, port: u16) -> Option<SlotNo>
    ensures { result ≡ first_from (of_client address port) 0 (slots row.now) }
{
    let end = row.len() / WORDS;
    let pairs = end / 2;
    for i in 0..pairs {
        let even = SlotNo(2 * i);
        if slot_at(row, even).is_of(address, port) {
            return Some(even);
        }
        let odd = SlotNo(2 * i + 1);
        if slot_at(row, odd).is_of(address, port) {
            return Some(odd);
        }
    }
    let last = SlotNo(2 * pairs);
    if last.0 < end && slot_at(row, last).is_of(address, port) {
        return Some(last);
    }
    None
}

// The place of the first free slot among the words of slots.
fn first_free(slots: &[[u32; WORDS]]) -> Option<usize>
    ensures { result ≡ position (λ w. is_unused (slot_of_words w)) slots.now }
{
    slots
        .iter()
        .position(|words| Slot::from(*words).is_unused())
}

// The lowest free slot.
pub fn find_free(row: &[u32]) -> Option<SlotNo>
    ensures { result ≡ first_from is_unused 0 (slots row.now) }
{
    first_free(slots_of(row)).map(SlotNo)
}

// The lowest slot that is free once slot `k` is freed: the lowest of the free ones and `k`.
pub fn find_free_with(row: &[u32], k: SlotNo) -> SlotNo
    requires { k.0 < length row.now / words_per_slot }
    ensures { Some result ≡ first_from is_unused 0 (freed (slots row.now) k.0) }
{
    match find_free(row) {
        Some(free) => free.min(k),
        None => k,
    }
}
