// Setup: a new service over the row, whatever the state before.
ghost use Rattle.std.specs.Prelude.{◌≡◌, []};
ghost use Rattle.director.specs.State.{result_of};
ghost use Rattle.director.specs.Setup.{new_director, setup_of};

use crate::judge::judge_settings;
use crate::state::{Answer, Director, Outcome, Service, refuse};
use scheduler::start;
use scheduler::weights::weights_of;
use servers::Server;
use servers::fresh::fresh_servers;
use table::clear::clear_row;

// The state that an accepted setup makes. (`n` is used several times.)
fn new_director(service: Service, given: &[Server; 64]) -> Director
    ensures { result ≡ new_director service given.now }
{
    let n = service.servers;
    let servers = fresh_servers(given, n);
    Director {
        service,
        servers,
        weights: weights_of(&servers, n),
        walk: start(service.scheduler, n),
        clock: 0,
    }
}

// Sets up the service over the given servers, of which those past its last are not read. Refused, it gives the present state back.
#[tactic(auto, unfolding(crate::specs::Setup::setup_of))]
pub fn set_up(
    director: Director,
    service: Service,
    servers: [Server; 64],
    row: &mut [u32],
) -> Outcome
    ensures { result_of result row.new [] ≡ setup_of director service servers row.old }
{
    if let Err(why) = judge_settings(service, &servers, row) {
        return refuse(director, why);
    }
    clear_row(row);
    Outcome {
        answer: Answer::Done,
        director: new_director(service, &servers),
    }
}
