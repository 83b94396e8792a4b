// Counters of answers: how often each was given to packets of each way. (Casts: an enum's own number, for a place among them.)
ghost use Rattle.std.specs.Prelude.{◌≡◌, ◌≤◌};
ghost use Rattle.serving.specs.Counters.{first_of, change_index, answer_index, counted};

use director::state::{Answer, Change, Way};

// How many counters each way has.
const EACH: usize = 23;

// Both ways' counters.
pub const COUNTERS: usize = 2 * EACH;

// The first counter of a way.
fn first_of(way: Way) -> usize
    ensures value { result ≡ first_of way }
    ensures bound { result ≤ 23 }
{
    EACH * way as usize
}

// The counter of a change, among those of a way: they stand in the order of their numbers.
fn change_index(change: Change) -> usize
    ensures value { result ≡ change_index change }
    ensures bound { result ≤ 22 }
{
    change as usize - 1
}

// The counter of an answer: refusals come after the changes, each at the place of its number.
fn answer_index(answer: Answer) -> usize
    ensures value { result ≡ answer_index answer }
    ensures bound { result ≤ 22 }
{
    match answer {
        Answer::Passed(_, change) => change_index(change),
        Answer::Refused(why) => 2 + usize::from(u8::from(why)),
        Answer::Done | Answer::Number(_) => 0,
    }
}

// Counts the answer to a packet.
pub fn count_answer(counters: &mut [u64; COUNTERS], way: Way, answer: Answer)
    ensures { counters.new ≡ counted counters.old way answer }
{
    let at = first_of(way) + answer_index(answer);
    counters[at] = counters[at].wrapping_add(1);
}
