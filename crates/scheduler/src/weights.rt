// What weighted round-robin and refusal 14 need of all the weights: the largest, and the greatest common divisor. A state holds both,
// so that neither works them out.
ghost use Rattle.std.specs.Prelude.{◌≡◌};
ghost use Rattle.scheduler.specs.Weights.{gcd_of, weights_of, weights_agree, none_weighs};

use servers::Server;

// The largest weight of the servers in use, and the greatest common divisor of their weights: both 0 where every weight is 0.
#[derive(Clone, Copy, PartialEq, Eq)]
pub struct Weights {
    pub largest: u16,
    pub divisor: u16,
}

// The greatest common divisor of two numbers, by Euclid's recursion: the remainder falls.
fn gcd(a: u16, b: u16) -> u16
    ensures { result ≡ gcd_of a b }
{
    if b == 0 { a } else { gcd(b, a % b) }
}

// Both numbers of the first n weights. (A cast to `usize`: how many places.)
pub fn weights_of(servers: &[Server; 64], n: u32) -> Weights
    ensures { result ≡ weights_of servers.now n }
{
    let none = Weights {
        largest: 0,
        divisor: 0,
    };
    servers.iter().take(n as usize).fold(
        none,
        |so_far, server| Weights {
            largest: so_far.largest.max(server.weight),
            divisor: gcd(server.weight, so_far.divisor),
        },
    )
}

// Whether the numbers held are those that the weights give.
pub fn weights_agree(held: Weights, servers: &[Server; 64], n: u32) -> bool
    ensures { result ≡ weights_agree held servers.now n }
{
    held == weights_of(servers, n)
}

// Whether every weight is 0, by the numbers held (refusal 14).
pub fn none_weighs(held: Weights) -> bool
    ensures { result ≡ none_weighs held }
{
    held.largest == 0
}
