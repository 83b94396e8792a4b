// The ring of n servers, which round-robin and weighted round-robin walk.
ghost use Rattle.std.specs.Prelude.{◌≡◌, ◌-◌, ◌<◌, ℕ, Bool};
ghost use Rattle.scheduler.specs.Ring.{most_passed, after_in, next_of, picked_at, ring_of};

use crate::walk::{Pick, Walk};
use servers::ServerNo;

// The number of the last of n servers.
pub fn last(n: u32) -> ServerNo
    ensures { result.0 ≡ n - 1 }
{
    ServerNo(n.max(1) - 1)
}

// How many of the n numbers a walk may pass: all but the last that it comes to.
pub fn most_passed(n: u32) -> u32
    ensures { result ≡ most_passed n }
{
    n.saturating_sub(1)
}

// The number after another in the ring of n servers.
pub fn after(no: ServerNo, n: u32) -> ServerNo
    ensures { result.0 ≡ after_in n no.0 }
{
    if no < last(n) {
        ServerNo(no.0 + 1)
    } else {
        ServerNo(0)
    }
}

// The number that a walk comes to next from its place.
pub fn next(place: Option<ServerNo>, n: u32) -> ServerNo
    ensures { result.0 ≡ next_of n place }
{
    place.map_or(ServerNo(0), |no| after(no, n))
}

// A server picked, with the walk moved to it.
pub fn picked_at(no: ServerNo, level: u16) -> Pick
    ensures { result ≡ picked_at no.0 level }
{
    Pick {
        server: no,
        walk: Walk {
            place: Some(no),
            level,
        },
    }
}

// What a walk round the ring goes by: the level when it comes to a number, and whether a server is taken at its level.
pub trait Round {
    ghost levels: { Self → ℕ → ℕ → ℕ };

    ghost picks: { Self → ℕ → ℕ → Bool };

    fn level_at(&self, no: ServerNo, level: u16) -> u16
        ensures { result ≡ levels self.now no.0 level };

    fn takes(&self, no: ServerNo, level: u16) -> bool
        ensures { result ≡ picks self.now no.0 level };
}

// The walk on, once round: the first number that is taken at its level. The last that it comes to needs no test, where one is taken.
pub fn go_round<R: Round>(by: &R, n: u32, walk: Walk) -> Pick
    ensures { result ≡ ring_of (R.levels by.now) (R.picks by.now) n walk }
{
    let mut no = next(walk.place, n);
    let mut level = walk.level;
    for _ in 0..most_passed(n) {
        level = by.level_at(no, level);
        if by.takes(no, level) {
            return picked_at(no, level);
        }
        no = after(no, n);
    }
    picked_at(no, by.level_at(no, level))
}
