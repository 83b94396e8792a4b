// Weighted round-robin (scheduler 2). The walk goes round the ring; each time that it comes to server 0 its level (cw)
// drops by the greatest common divisor of all weights, and where it is then not above 0 it becomes the largest weight.
// The first server with a weight at or above the level is picked, so in each round of levels a server is picked
// weight / divisor times, and higher weights come first.
ghost use Rattle.std.specs.Prelude.{◌≡◌};
ghost use Rattle.scheduler.specs.WeightedRoundRobin.{start_walk, level_at, reaches, weighted_round_robin};

use crate::algorithm::Algorithm;
use crate::ring::{Round, go_round};
use crate::walk::{Pick, Walk};
use crate::weights::Weights;
use servers::{Server, ServerNo, weight_at};

#[derive(Clone, Copy)]
pub struct WeightedRoundRobin;

// The walk to the first server that reaches the level.
#[derive(Clone, Copy)]
struct FirstReaching<'a> {
    servers: &'a [Server; 64],
    held: Weights,
}

impl Round for FirstReaching<'_> {
    ghost levels = { λ by. level_at by.held.divisor by.held.largest };

    ghost picks = { λ by. reaches by.servers.now };

    fn level_at(&self, no: ServerNo, level: u16) -> u16 {
        if no.0 != 0 {
            return level;
        }
        if self.held.divisor < level {
            level - self.held.divisor
        } else {
            self.held.largest
        }
    }

    fn takes(&self, no: ServerNo, level: u16) -> bool {
        level <= weight_at(self.servers, no)
    }
}

// Before the first server.
fn start_walk() -> Walk
    ensures { result ≡ start_walk }
{
    Walk {
        place: None,
        level: 0,
    }
}

impl Algorithm for WeightedRoundRobin {
    ghost says = { λ it. weighted_round_robin };

    fn start(&self, n: u32) -> Walk {
        start_walk()
    }

    fn in_range(&self, top: u16, n: u32, walk: Walk) -> bool {
        walk.level <= top && walk.place.is_none_or(|no| walk.level != 0 && no.0 < n)
    }

    // At its start again where the weights differ.
    fn after_weight(&self, walk: Walk, old: u16, new: u16) -> Walk {
        if old == new { walk } else { start_walk() }
    }

    fn pick(&self, servers: &[Server; 64], n: u32, held: Weights, walk: Walk) -> Pick {
        go_round(&FirstReaching { servers, held }, n, walk)
    }
}
