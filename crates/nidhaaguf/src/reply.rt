// What a call gives back to C: the director's outcome in numbers (SCOPE section 4).
ghost use Rattle.std.specs.Prelude.{◌≡◌};
ghost use Rattle.director.specs.State.{changes_nothing};
ghost use Rattle.nidhaaguf.specs.declared.state.State.{State};
ghost use Rattle.nidhaaguf.specs.Reply.{state_after, reply_of, HandedIn};

use crate::state::State;
use director::state::{Answer, Director, Outcome};
use serving::told::Told;

// NidhaagufAnswer: the state after a call and its answer, 816 bytes.
#[repr(C)]
#[derive(Clone, Copy)]
pub struct Reply {
    pub state: State,
    // 0 for accepted, else the refusal's number
    pub refusal: u32,
    // of an accepted count or tick call its number, of an accepted packet its server, else 0
    pub number: u32,
    // of an accepted packet 1 opened, 2 kept, 3 ended, else 0
    pub change: u32,
}

// Whether an answer is a refusal that changes nothing.
fn changes_nothing(answer: Answer) -> bool
    ensures { result ≡ changes_nothing answer }
{
    matches!(answer, Answer::Refused(why) if !why.keeps_clock())
}

// The state after a call. Where the refusal changes nothing it is the one handed in, and only the place can be another than the
// director's: one that can't be decoded comes back too. So the place alone is handed here, and not the whole state.
fn state_after(place: u64, director: Director, answer: Answer) -> State
    ensures { (given : State) → HandedIn given place director answer → result ≡ state_after given director answer }
{
    let mut state = State::from(director);
    if changes_nothing(answer) {
        state.place = place;
    }
    state
}

// The reply to a call that was handed a state with this place and had an outcome.
pub fn reply_of(place: u64, outcome: Outcome) -> Reply
    ensures { (given : State) → HandedIn given place outcome.director outcome.answer → result ≡ reply_of given outcome.director outcome.answer }
{
    let Outcome { answer, director } = outcome;
    let told = Told::from(answer);
    Reply {
        state: state_after(place, director, answer),
        refusal: told.refusal,
        number: told.number,
        change: told.change,
    }
}
