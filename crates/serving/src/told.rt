// An answer in numbers (SCOPE section 4).
ghost use Rattle.std.specs.Prelude.{◌≡◌, ◌+◌, ◌<◌, length};
ghost use Rattle.director.specs.State.{is_accepted};
ghost use Rattle.serving.specs.Told.{told_by, told_behind};

use director::state::Answer;

// What an answer tells. (Numbers: they are the words of a record, and of C's structs.)
#[derive(Clone, Copy)]
pub struct Told {
    // 0 for accepted, else the refusal's number
    pub refusal: u32,
    // of an accepted count or tick call its number, of an accepted packet its server, else 0
    pub number: u32,
    // of an accepted packet 1 opened, 2 kept, 3 ended, else 0
    pub change: u32,
}

// What an accepted setup or weight call tells.
const DONE: Told = Told {
    refusal: 0,
    number: 0,
    change: 0,
};

// An answer in numbers. (A cast: the change's own number.)
impl From<Answer> for Told {
    ghost from_gives = { λ answer told. told ≡ told_by answer };

    fn from(answer: Answer) -> Told {
        match answer {
            Answer::Done => DONE,
            Answer::Number(number) => Told { number, ..DONE },
            Answer::Passed(no, change) => Told {
                number: no.0,
                change: change as u32,
                ..DONE
            },
            Answer::Refused(why) => Told {
                refusal: u32::from(u8::from(why)),
                ..DONE
            },
        }
    }
}

// Whether an answer is no refusal.
pub fn is_accepted(answer: Answer) -> bool
    ensures { result ≡ is_accepted answer }
{
    !matches!(answer, Answer::Refused(_))
}

// Writes what an answer tells into the three words behind place `at`.
pub fn write_told(words: &mut [u32], at: usize, told: Told)
    requires { at + 3 < length words.old }
    ensures { words.new ≡ told_behind words.old at told }
{
    words[at + 1] = told.refusal;
    words[at + 2] = told.number;
    words[at + 3] = told.change;
}
