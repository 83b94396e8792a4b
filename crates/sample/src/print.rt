// Answers as text.
use director::state::{Answer, Change};
use std::fmt;

// An answer, to be printed.
#[derive(Clone, Copy)]
pub struct Told(pub Answer);

impl fmt::Display for Told {
    fn fmt<W: fmt::Write>(&self, f: &mut fmt::Formatter<W>) -> fmt::Result {
        match self.0 {
            Answer::Done => f.write_str("done"),
            Answer::Number(n) => write!(f, "number {n}"),
            Answer::Passed(server, change) => write!(f, "{}, server {}", name(change), server.0),
            Answer::Refused(why) => write!(f, "refused, number {}", u8::from(why)),
        }
    }
}

// What became of an accepted packet's connection.
fn name(change: Change) -> &'static str {
    match change {
        Change::Opened => "opened",
        Change::Kept => "kept",
        Change::Ended => "ended",
    }
}
