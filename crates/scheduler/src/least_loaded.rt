// Least-connection (scheduler 3) and weighted least-connection (4): the least loaded of the servers with a weight above 0; of equals, the
// one with the lowest number. Quotients are compared by cross products: a.count / a.weight < b.count / b.weight where
// a.count * b.weight < b.count * a.weight.
ghost use Rattle.std.specs.Prelude.{◌≡◌};
ghost use Rattle.scheduler.specs.Scheduler.{holding};
ghost use Rattle.scheduler.specs.LeastLoaded.{load_beside, lighter_by, better_of, least_of, pick_least};

use crate::algorithm::Algorithm;
use crate::walk::{Pick, Walk, held_walk, is_held};
use crate::weights::Weights;
use servers::{Server, ServerNo, server_at};

// What is compared: counts (scheduler 3), or counts per weight (scheduler 4).
#[derive(Clone, Copy, PartialEq, Eq)]
pub enum Load {
    Count,
    PerWeight,
}

#[derive(Clone, Copy)]
pub struct LeastLoaded {
    pub by: Load,
}

// The load of a beside b: its count, or its side of the cross product.
fn load_beside(by: Load, a: Server, b: Server) -> u64
    ensures { result ≡ load_beside by a b }
{
    match by {
        Load::Count => u64::from(a.count),
        Load::PerWeight => u64::from(a.count) * u64::from(b.weight),
    }
}

// Whether a carries less than b.
fn lighter(by: Load, a: Server, b: Server) -> bool
    ensures { result ≡ lighter_by by a b }
{
    load_beside(by, a, b) < load_beside(by, b, a)
}

// The better of the best so far and one server more: a weight of 0 is never better, and any other is better than it.
fn better(by: Load, servers: &[Server; 64], best: ServerNo, no: ServerNo) -> ServerNo
    ensures { result ≡ better_of by servers.now best no.0 }
{
    let server = server_at(servers, no);
    if server.weight == 0 {
        return best;
    }
    let held = server_at(servers, best);
    if held.weight == 0 {
        return no;
    }
    if lighter(by, server, held) { no } else { best }
}

// The least loaded of the first n servers, of those whose weight is above 0; server 0 is not held against itself. (A `for`: a fold over a range of
// numbers would be no plainer, and one over the servers would have to carry each one's number.)
pub fn least(by: Load, servers: &[Server; 64], n: u32) -> ServerNo
    ensures { result ≡ least_of by servers.now n }
{
    let mut best = ServerNo(0);
    for i in 1..n {
        best = better(by, servers, best, ServerNo(i));
    }
    best
}

// The least loaded of the first n servers picked; the walk stays where it is.
pub fn pick_least(by: Load, servers: &[Server; 64], n: u32, walk: Walk) -> Pick
    ensures { result ≡ pick_least by servers.now n walk }
{
    Pick {
        server: least(by, servers, n),
        walk,
    }
}

// Its walk is held.
impl Algorithm for LeastLoaded {
    ghost says = { λ it. holding (pick_least it.by) };

    fn start(&self, n: u32) -> Walk {
        held_walk()
    }

    fn in_range(&self, top: u16, n: u32, walk: Walk) -> bool {
        is_held(walk)
    }

    fn after_weight(&self, walk: Walk, old: u16, new: u16) -> Walk {
        walk
    }

    fn pick(&self, servers: &[Server; 64], n: u32, held: Weights, walk: Walk) -> Pick {
        pick_least(self.by, servers, n, walk)
    }
}
