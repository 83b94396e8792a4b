// Counts by server: an array of numbers, one to each place for a server, lent to be read and counted up.
ghost use Rattle.std.specs.Prelude.{◌≡◌, ◌<◌};
ghost use Rattle.servers.specs.Tally.{counted, one_more, counts_agree};

use crate::{Server, ServerNo};

// One more is counted for a server.
pub fn count_one(counts: &mut [u32; 64], no: ServerNo)
    requires { (no.0 < 64) × (counted counts.old no.0 < 4294967295) }
    ensures { counts.new ≡ one_more counts.old no.0 }
{
    counts[no.0 as usize] += 1;
}

// Whether the count of each of the first n servers is the number counted for it.
pub fn counts_agree(counts: &[u32; 64], servers: &[Server; 64], n: u32) -> bool
    ensures { result ≡ counts_agree counts.now servers.now n }
{
    servers
        .iter()
        .zip(counts)
        .take(n as usize)
        .all(|(server, count)| server.count == *count)
}
