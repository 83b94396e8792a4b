// What a published scheduler is. A new one is a file with its impl, and an arm of the root's `by_number!`.
ghost use Rattle.std.specs.Prelude.{◌≡◌};
ghost use Rattle.scheduler.specs.Scheduler.{Scheduler};

use crate::walk::{Pick, Walk};
use crate::weights::Weights;
use servers::Server;

pub trait Algorithm {
    // What it says, as a record of four functions. (Its laws, `Ranged` and `Picking`, stand in specs/ and are proved for each in proofs/: the impl
    // of a trait with laws may cite specs/ alone, which hold no proofs here.)
    ghost says: { Self → Scheduler };

    // Where its walk among n servers starts.
    fn start(&self, n: u32) -> Walk
        ensures { result ≡ (says self.now).start n };

    // Whether a walk is in its range, where top is the largest weight.
    fn in_range(&self, top: u16, n: u32, walk: Walk) -> bool
        ensures { result ≡ (says self.now).in_range top n walk };

    // The walk after a weight was set from old to new.
    fn after_weight(&self, walk: Walk, old: u16, new: u16) -> Walk
        ensures { result ≡ (says self.now).after_weight walk old new };

    // The pick among the first n servers, with the largest weight and the divisor that are held.
    fn pick(&self, servers: &[Server; 64], n: u32, held: Weights, walk: Walk) -> Pick
        ensures { result ≡ (says self.now).pick servers.now n held walk };
}
