// The director: six calls over one virtual service, its servers and its connections. Each call takes the state by value and gives it back
// beside its answer; the connection table's row and the packet are lent.
#![tactic(auto)]

mod carry;
mod clock;
pub mod control;
mod decide;
mod judge;
pub mod number;
pub mod packets;
mod segment;
pub mod setup;
pub mod state;
pub mod tick;
