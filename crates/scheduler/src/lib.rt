// Picks a server for a new connection, by one of the four published schedulers (SCOPE 1.4). A scheduler is an `Algorithm`: where its walk
// starts, the walk's range, what a weight change makes of it, and the pick.
#![tactic(auto)]

pub mod algorithm;
pub mod least_loaded;
pub mod ring;
pub mod round_robin;
pub mod walk;
pub mod weighted_round_robin;
pub mod weights;

ghost use Rattle.std.specs.Prelude.{◌≡◌};
ghost use Rattle.scheduler.specs.ByNumber.{is_scheduler, start_of, in_range_to, after_weight, pick_of};

use algorithm::Algorithm;
use least_loaded::{LeastLoaded, Load};
use round_robin::RoundRobin;
use servers::Server;
use walk::{Pick, Walk};
use weighted_round_robin::WeightedRoundRobin;
use weights::Weights;

// Calls a method of the scheduler of a number. A macro, since the schedulers are three types. The last arm is scheduler 4, since refusals 2 and
// 15 let no other number come here. (Numbers, and not an enum, since the laws of specs/ speak of every number, as `PickLaw`, and C hands a number
// in.)
macro_rules! by_number {
    ($number:expr, $algorithm:ident => $call:expr) => {
        match $number {
            1 => {
                let $algorithm = RoundRobin;
                $call
            }
            2 => {
                let $algorithm = WeightedRoundRobin;
                $call
            }
            3 => {
                let $algorithm = LeastLoaded { by: Load::Count };
                $call
            }
            _ => {
                let $algorithm = LeastLoaded {
                    by: Load::PerWeight,
                };
                $call
            }
        }
    };
}

// Whether a number is a scheduler's (refusal 2).
pub fn is_scheduler(scheduler: u8) -> bool
    ensures { result ≡ is_scheduler scheduler }
{
    matches!(scheduler, 1..=4)
}

// The walk at its scheduler's start.
pub fn start(scheduler: u8, n: u32) -> Walk
    ensures { result ≡ start_of scheduler n }
{
    by_number!(scheduler, algorithm => algorithm.start(n))
}

// Whether a walk is in its scheduler's range, where top is the largest weight.
pub fn in_range(scheduler: u8, top: u16, n: u32, walk: Walk) -> bool
    ensures { result ≡ in_range_to scheduler top n walk }
{
    by_number!(scheduler, algorithm => algorithm.in_range(top, n, walk))
}

// The walk after a weight was set from old to new.
pub fn after_weight(scheduler: u8, walk: Walk, old: u16, new: u16) -> Walk
    ensures { result ≡ after_weight scheduler walk old new }
{
    by_number!(scheduler, algorithm => algorithm.after_weight(walk, old, new))
}

// Picks one of the first n servers by scheduler 1 to 4, with the walk after it. With the walk in its range, the numbers held true and
// some weight above 0, it is an existing server of weight above 0.
pub fn pick(scheduler: u8, servers: &[Server; 64], n: u32, held: Weights, walk: Walk) -> Pick
    ensures { result ≡ pick_of scheduler servers.now n held walk }
{
    by_number!(scheduler, algorithm => algorithm.pick(servers, n, held, walk))
}
