// What a serve tells of each packet that it has taken. (Casts: a way's number, and numbers that lose nothing or stand modulo 2³².)
ghost use Rattle.std.specs.Prelude.{◌≡◌, ◌+◌, ◌*◌, ◌<◌, length};
ghost use Rattle.serving.specs.Trace.{traced, packets_traced};

use crate::told::{Told, write_told};
use director::state::Way;

// The words of a packet's record.
const RECORD: usize = 5;

// Writes the record of packet `k`, of `n` bytes. (That the record is there is asked as an index asks it, here and of what calls this.)
pub fn write_trace(records: &mut [u32], k: usize, n: usize, way: Way, told: Told)
    requires { 5 * k + 4 < length records.old }
    ensures { records.new ≡ traced records.old k n way told }
{
    let at = RECORD * k;
    records[at] = (n % (1 << 32)) as u32;
    records[at + 1] = way as u32;
    write_told(records, at + 1, told);
}

// How many packets may be taken: each has a whole record.
pub fn packets_traced(records: &[u32], most: u32) -> u32
    ensures { result ≡ packets_traced records.now most }
{
    (records.len() / RECORD).min(most as usize) as u32
}
