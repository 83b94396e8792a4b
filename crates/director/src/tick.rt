// The tick call: moves the clock on and removes idle connections.
ghost use Rattle.std.specs.Prelude.{◌≡◌, true, []};
ghost use Rattle.table.specs.Slots.{slots};
ghost use Rattle.director.specs.State.{lent, left_with, result_of, in_words};
ghost use Rattle.director.specs.Judge.{sound_of};
ghost use Rattle.director.specs.Tick.{tick_held, tick_of};

use crate::clock::settle;
use crate::judge::is_sound;
use crate::state::{Answer, Director, Outcome, Refusal, refuse};

// A tick of a sound state.
fn tick_sound(director: &mut Director, row: &mut [u32], clock: u32) -> Answer
    requires { sound_of director.old row.old ≡ true }
    ensures { left_with result director.new row.new [] ≡ in_words (tick_held director.old (lent (slots row.old) []) clock) }
{
    if clock < director.clock {
        return Answer::Refused(Refusal::EarlierClock);
    }
    Answer::Number(settle(director, row, clock))
}

// Moves the clock on, and tells how many idle connections that removed.
#[tactic(auto, unfolding(crate::specs::Tick::tick_of))]
pub fn tick(mut director: Director, row: &mut [u32], clock: u32) -> Outcome
    ensures { result_of result row.new [] ≡ tick_of director row.old clock }
{
    if !is_sound(&director, row) {
        return refuse(director, Refusal::Unsound);
    }
    let answer = tick_sound(&mut director, row, clock);
    Outcome { answer, director }
}
