// A director and its connection table, which every call takes together.
ghost use Rattle.std.specs.Prelude.{◌≡◌, [], replicate};
ghost use Rattle.director.specs.declared.state.Way.{Way};
ghost use Rattle.director.specs.Control.{weight_of, count_call_of};
ghost use Rattle.director.specs.Packets.{packet_of};
ghost use Rattle.director.specs.Setup.{setup_of};
ghost use Rattle.director.specs.Tick.{tick_of};
ghost use Rattle.director.specs.State.{left_with};
ghost use Rattle.sample.specs.Instance.{Sent};

use crate::begin::{CLIENT, VIRTUAL, blank};
use crate::frame::tcp;
use crate::print::Told;
use director::control::{count, set_weight};
use director::packets::{inbound, outbound};
use director::setup::set_up;
use director::state::{Director, Outcome, Service};
use director::tick::tick;
use servers::{Server, ServerNo};

// A director, and a row of `WORDS` words that it keeps its connections in.
#[derive(Drop)]
pub struct Instance<const WORDS: usize> {
    pub director: Director,
    pub row: [u32; WORDS],
}

// The director's six calls by their names, and two that make the packet themselves. (Servers go by value into setup, as SCOPE 2.2 has them.)
impl<const WORDS: usize> Instance<WORDS> {
    // Nothing is set up, and the row is zeros.
    pub fn new() -> Self
        ensures { result.row ≡ replicate WORDS 0 }
    {
        Instance {
            director: blank(),
            row: [0; WORDS],
        }
    }

    // The state after a call is kept, and its answer told.
    fn keep(&mut self, outcome: Outcome) -> Told
        ensures director { self.new.director ≡ outcome.director }
        ensures row { self.new.row ≡ self.old.row }
        ensures answer { result.0 ≡ outcome.answer }
    {
        self.director = outcome.director;
        Told(outcome.answer)
    }

    pub fn set_up(&mut self, service: Service, servers: [Server; 64]) -> Told
        ensures { left_with result.0 self.new.director self.new.row [] ≡ setup_of self.old.director service servers self.old.row }
    {
        let outcome = set_up(self.director, service, servers, &mut self.row);
        self.keep(outcome)
    }

    pub fn set_weight(&mut self, no: ServerNo, weight: u16) -> Told
        ensures { left_with result.0 self.new.director self.new.row [] ≡ weight_of self.old.director self.old.row no.0 weight }
    {
        let outcome = set_weight(self.director, &self.row, no, weight);
        self.keep(outcome)
    }

    pub fn count(&self, no: ServerNo) -> Told
        ensures { result.0 ≡ (count_call_of self.now.director self.now.row no.0).answer }
    {
        Told(count(self.director, &self.row, no).answer)
    }

    pub fn tick(&mut self, clock: u32) -> Told
        ensures { left_with result.0 self.new.director self.new.row [] ≡ tick_of self.old.director self.old.row clock }
    {
        let outcome = tick(self.director, &mut self.row, clock);
        self.keep(outcome)
    }

    pub fn inbound(&mut self, packet: &mut [u8], clock: u32) -> Told
        ensures { left_with result.0 self.new.director self.new.row packet.new ≡ packet_of Way.Inbound self.old.director self.old.row packet.old clock }
    {
        let outcome = inbound(self.director, &mut self.row, packet, clock);
        self.keep(outcome)
    }

    pub fn outbound(&mut self, packet: &mut [u8], clock: u32) -> Told
        ensures { left_with result.0 self.new.director self.new.row packet.new ≡ packet_of Way.Outbound self.old.director self.old.row packet.old clock }
    {
        let outcome = outbound(self.director, &mut self.row, packet, clock);
        self.keep(outcome)
    }

    // A segment of a client's port to the service.
    pub fn from_client(&mut self, port: u16, flags: u8, clock: u32) -> Told
        ensures { Sent Way.Inbound clock result.0 self.old.director self.old.row self.new.director self.new.row }
    {
        let mut packet = tcp(CLIENT, port, VIRTUAL, 5432, flags);
        self.inbound(&mut packet, clock)
    }

    // A segment of a server to a client's port.
    pub fn from_server(&mut self, server: u32, port: u16, flags: u8, clock: u32) -> Told
        ensures { Sent Way.Outbound clock result.0 self.old.director self.old.row self.new.director self.new.row }
    {
        let mut packet = tcp(server, 6432, CLIENT, port, flags);
        self.outbound(&mut packet, clock)
    }
}
