// Round-robin (scheduler 1). The walk's place is the last pick; the next number in the ring with a weight above 0 is
// picked. A weight of 0 takes a server out of service. Where some weight is above 0, all numbers but one may be passed, and that one
// needs no test.
ghost use Rattle.std.specs.Prelude.{◌≡◌};
ghost use Rattle.scheduler.specs.RoundRobin.{keeps_level, weighs, round_robin};

use crate::algorithm::Algorithm;
use crate::ring::{Round, go_round, last};
use crate::walk::{Pick, Walk, rests_at};
use crate::weights::Weights;
use servers::{Server, ServerNo, weight_at};

#[derive(Clone, Copy)]
pub struct RoundRobin;

// The walk to the next server that weighs.
#[derive(Clone, Copy)]
struct NextWeighing<'a> {
    servers: &'a [Server; 64],
}

impl Round for NextWeighing<'_> {
    ghost levels = { λ by. keeps_level };

    ghost picks = { λ by. weighs by.servers.now };

    fn level_at(&self, no: ServerNo, level: u16) -> u16 {
        level
    }

    fn takes(&self, no: ServerNo, level: u16) -> bool {
        0 < weight_at(self.servers, no)
    }
}

impl Algorithm for RoundRobin {
    ghost says = { λ it. round_robin };

    // At the last server, so that the first is next.
    fn start(&self, n: u32) -> Walk {
        Walk {
            place: Some(last(n)),
            level: 0,
        }
    }

    fn in_range(&self, top: u16, n: u32, walk: Walk) -> bool {
        rests_at(walk, n)
    }

    fn after_weight(&self, walk: Walk, old: u16, new: u16) -> Walk {
        walk
    }

    fn pick(&self, servers: &[Server; 64], n: u32, held: Weights, walk: Walk) -> Pick {
        go_round(&NextWeighing { servers }, n, walk)
    }
}
