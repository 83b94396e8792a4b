// The scheduler's walk, and the walk that is held at one place.
ghost use Rattle.std.specs.Prelude.{◌≡◌};
ghost use Rattle.scheduler.specs.Walk.{rests_at, held_walk};

use servers::ServerNo;

// The walk: its place (i, or the last pick; `None` before the first server, -1), and the level of weighted round-robin (cw in SCOPE
// 10.5).
#[derive(Clone, Copy, PartialEq, Eq)]
pub struct Walk {
    pub place: Option<ServerNo>,
    pub level: u16,
}

// The server picked, with the walk after it.
#[derive(Clone, Copy)]
pub struct Pick {
    pub server: ServerNo,
    pub walk: Walk,
}

// Whether a walk that holds its level at 0 is at one of the first n servers.
pub fn rests_at(walk: Walk, n: u32) -> bool
    ensures { result ≡ rests_at n walk }
{
    walk.level == 0 && walk.place.is_some_and(|no| no.0 < n)
}

// The walk of a scheduler that holds it always.
pub fn held_walk() -> Walk
    ensures { result ≡ held_walk }
{
    Walk {
        place: Some(ServerNo(0)),
        level: 0,
    }
}

// Whether a walk is the held one.
pub fn is_held(walk: Walk) -> bool
    ensures { result ≡ rests_at 1 walk }
{
    rests_at(walk, 1)
}
