// The weight and count calls.
ghost use Rattle.std.specs.Prelude.{◌≡◌, []};
ghost use Rattle.director.specs.State.{result_of};
ghost use Rattle.director.specs.Control.{number_judged, weighed, weight_of, count_call_of};

use crate::judge::is_sound;
use crate::state::{Answer, Director, Outcome, Refusal, refuse};
use scheduler::after_weight;
use scheduler::weights::weights_of;
use servers::{ServerNo, server_at, weight_at};

// 15, then 5.
#[tactic(auto, unfolding(crate::specs::Control::number_judged))]
fn judge_number(director: &Director, row: &[u32], no: ServerNo) -> Result<(), Refusal>
    ensures { result ≡ number_judged director.now row.now no.0 }
{
    if !is_sound(director, row) {
        return Err(Refusal::Unsound);
    }
    if director.service.servers <= no.0 {
        return Err(Refusal::NoServer);
    }
    Ok(())
}

// Sets one weight in a state.
fn set_server_weight(director: &mut Director, no: ServerNo, weight: u16)
    ensures { director.new ≡ weighed director.old no.0 weight }
{
    let old = weight_at(&director.servers, no);
    servers::set_weight(&mut director.servers, no, weight);
    director.weights = weights_of(&director.servers, director.service.servers);
    director.walk = after_weight(director.service.scheduler, director.walk, old, weight);
}

// Sets a server's weight.
#[tactic(auto, unfolding(crate::specs::Control::weight_of))]
pub fn set_weight(mut director: Director, row: &[u32], no: ServerNo, weight: u16) -> Outcome
    ensures { result_of result row.now [] ≡ weight_of director row.now no.0 weight }
{
    if let Err(why) = judge_number(&director, row, no) {
        return refuse(director, why);
    }
    set_server_weight(&mut director, no, weight);
    Outcome {
        answer: Answer::Done,
        director,
    }
}

// Tells a server's count, as of the latest accepted clock.
#[tactic(auto, unfolding(crate::specs::Control::count_call_of))]
pub fn count(director: Director, row: &[u32], no: ServerNo) -> Outcome
    ensures { result_of result row.now [] ≡ count_call_of director row.now no.0 }
{
    if let Err(why) = judge_number(&director, row, no) {
        return refuse(director, why);
    }
    Outcome {
        answer: Answer::Number(server_at(&director.servers, no).count),
        director,
    }
}
