// What setup asks of its settings (refusals 1 to 4), and whether a state handed in is sound (refusal 15).
ghost use Rattle.std.specs.Prelude.{◌≡◌, ◌≤◌};
ghost use Rattle.director.specs.Judge.{is_protocol, service_right, sizes_right, settings_judged, parts_sound, sound_of};

use crate::state::{Director, Refusal, Service, TCP, UDP};
use scheduler::weights::weights_agree;
use scheduler::{in_range, is_scheduler};
use servers::Server;
use servers::rules::{Rule, all_keep};
use table::slot::is_row;

// Whether a number is TCP's or UDP's (refusal 2: a service may be handed in with any).
fn is_protocol(protocol: u8) -> bool
    ensures { result ≡ is_protocol protocol }
{
    matches!(protocol, TCP | UDP)
}

// Whether refusal 2 is not given.
fn is_service_right(service: Service) -> bool
    ensures { result ≡ service_right service }
{
    service.address != 0
        && service.port != 0
        && is_protocol(service.protocol)
        && is_scheduler(service.scheduler)
}

// Whether refusal 1 is not given.
fn are_sizes_right(n: u32, row: &[u32]) -> bool
    ensures { result ≡ sizes_right n row.now }
{
    (1..=64).contains(&n) && is_row(row)
}

// The first of refusals 1 to 4 that the settings meet. (`n` is used several times.)
#[tactic(auto, unfolding(crate::specs::Judge::settings_judged))]
pub fn judge_settings(service: Service, servers: &[Server; 64], row: &[u32]) -> Result<(), Refusal>
    ensures { result ≡ settings_judged service servers.now row.now }
{
    let n = service.servers;
    if !are_sizes_right(n, row) {
        return Err(Refusal::Size);
    }
    if !is_service_right(service) {
        return Err(Refusal::Service);
    }
    if !all_keep(Rule::Set, servers, n) {
        return Err(Refusal::ServerUnset);
    }
    if !all_keep(Rule::New, servers, n) {
        return Err(Refusal::ServerRepeated);
    }
    Ok(())
}

// Whether what refusals 1 to 4 don't ask about is sound too: unused places, the numbers held of the weights, walk, slots and counts. (For why
// n ≤ 64 is asked see `number_of` in `servers`. What is taken from the service is used several times.)
#[tactic(auto, unfolding(crate::specs::Judge::parts_sound))]
fn are_parts_sound(director: &Director, row: &[u32]) -> bool
    requires { director.now.service.servers ≤ 64 }
    ensures { result ≡ parts_sound director.now row.now }
{
    let Service {
        protocol,
        scheduler,
        servers: n,
        ..
    } = director.service;
    all_keep(Rule::UnusedFrom(n), &director.servers, 64)
        && weights_agree(director.weights, &director.servers, n)
        && in_range(scheduler, director.weights.largest, n, director.walk)
        && table::sound::is_sound(row, &director.servers, protocol, n, director.clock)
}

// Whether the state handed in is sound: 15 exactly where it is not.
#[tactic(auto, unfolding(crate::specs::Judge::sound_of))]
pub fn is_sound(director: &Director, row: &[u32]) -> bool
    ensures { result ≡ sound_of director.now row.now }
{
    judge_settings(director.service, &director.servers, row).is_ok()
        && are_parts_sound(director, row)
}
