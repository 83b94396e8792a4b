// What the programs share: packets to try a director with, a director and its row to begin with, answers as text, and where text goes.
#![tactic(auto)]

pub mod begin;
pub mod frame;
pub mod instance;
pub mod output;
pub mod print;
