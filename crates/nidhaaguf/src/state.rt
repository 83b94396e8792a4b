// The director's state as C holds it.
ghost use Rattle.std.specs.Prelude.{◌≡◌};
ghost use Rattle.nidhaaguf.specs.State.{place_of, place_number, decoded, encoded};

use director::state::{Director, Service};
use scheduler::walk::Walk;
use scheduler::weights::Weights;
use servers::{Server, ServerNo};

// NidhaagufState: the director's state in plain numbers, 800 bytes. Service at 0, clock at 12, servers at 16, place at 784, level at 792,
// largest weight at 794, divisor at 796.
#[repr(C)]
#[derive(Clone, Copy)]
pub struct State {
    pub service: Service,
    pub clock: u32,
    pub servers: [Server; 64],
    // the walk's place: 0 is -1, k + 1 is server number k
    pub place: u64,
    // the walk's level
    pub level: u16,
    // the largest weight of the servers in use, and the greatest common divisor of their weights
    pub largest_weight: u16,
    pub weight_divisor: u16,
}

// NidhaagufServers: what setup is given (an array alone is not passed by value in C).
#[repr(C)]
#[derive(Clone, Copy)]
pub struct Servers {
    pub server: [Server; 64],
}

// The place of a number. A number that no server's place has becomes the last server number there is: no sound state's walk is there.
fn place_of(number: u64) -> Option<ServerNo>
    ensures { result ≡ place_of number }
{
    let no = number.checked_sub(1)?;
    Some(ServerNo(u32::try_from(no).unwrap_or(u32::MAX)))
}

// The number of a place.
fn place_number(place: Option<ServerNo>) -> u64
    ensures { result ≡ place_number place }
{
    place.map_or(0, |no| u64::from(no.0) + 1)
}

// The director's state of a state in plain numbers.
impl From<State> for Director {
    ghost from_gives = { λ state director. director ≡ decoded state };

    fn from(state: State) -> Director {
        // (a variable: an array field straight in a literal gets no proof)
        let servers = state.servers;
        Director {
            service: state.service,
            servers,
            weights: Weights {
                largest: state.largest_weight,
                divisor: state.weight_divisor,
            },
            walk: Walk {
                place: place_of(state.place),
                level: state.level,
            },
            clock: state.clock,
        }
    }
}

// The director's state in plain numbers.
impl From<Director> for State {
    ghost from_gives = { λ director state. state ≡ encoded director };

    fn from(director: Director) -> State {
        let servers = director.servers;
        State {
            service: director.service,
            clock: director.clock,
            servers,
            place: place_number(director.walk.place),
            level: director.walk.level,
            largest_weight: director.weights.largest,
            weight_divisor: director.weights.divisor,
        }
    }
}
