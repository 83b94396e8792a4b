// The director's state, and what a call answers.
ghost use Rattle.std.specs.Prelude.{◌≡◌, ◌<◌, ◌≤◌};
ghost use Rattle.servers.specs.Servers.{count_at};
ghost use Rattle.director.specs.declared.state.Refusal.{Refusal};
ghost use Rattle.director.specs.State.{refused_by, with_one_less, with_one_more};

use packet::read::Fault;
use scheduler::walk::Walk;
use scheduler::weights::Weights;
use servers::{Server, ServerNo, lower, raise};

// The protocols' numbers.
pub const TCP: u8 = 6;

pub const UDP: u8 = 17;

// What the director serves: given by setup, and changed by nothing else. (Protocol and scheduler are numbers, as C hands them in: any number has
// a defined answer, and the laws speak of every number.)
#[repr(C)]
#[derive(Clone, Copy)]
pub struct Service {
    // the virtual address and port
    pub address: u32,
    pub port: u16,
    // `TCP` or `UDP`
    pub protocol: u8,
    // 1 to 4
    pub scheduler: u8,
    // how many servers there are
    pub servers: u32,
}

// The state that goes into a call and comes back from it; the connection table is lent beside it. The servers are not next to the
// service: the two would be copied as one, and the compiler then leaves out fewer of the array's copies. (An array by value: fixed memory, no heap.)
#[derive(Clone, Copy)]
pub struct Director {
    pub servers: [Server; 64],
    // what the servers' weights come to
    pub weights: Weights,
    pub walk: Walk,
    pub clock: u32,
    pub service: Service,
}

// Which way a packet goes: from a client, or from a server. The numbers are those that a program is told.
#[derive(Clone, Copy)]
pub enum Way {
    Inbound = 0,
    Outbound = 1,
}

// Why a call is refused; `u8::from` gives its number (SCOPE section 4).
#[derive(Clone, Copy)]
pub enum Refusal {
    // 1: number of servers or length of the row
    Size,
    // 2: virtual address or port 0, protocol, scheduler
    Service,
    // 3: a server's address or port is 0
    ServerUnset,
    // 4: two servers with equal address and port
    ServerRepeated,
    // 5: no server of that number
    NoServer,
    // 6 to 9 and 20: the packet can't be read
    Packet(Fault),
    // 10: not to the service, or not from a server
    OtherEndpoint,
    // 11: earlier than the stored clock
    EarlierClock,
    // 12: no connection, and the packet opens none
    NoConnection,
    // 13: no slot is free
    TableFull,
    // 14: every weight is 0
    NoWeight,
    // 15: the state handed in is not sound
    Unsound,
}

impl From<Fault> for Refusal {
    ghost from_gives = { λ fault why. why ≡ Refusal.Packet fault };

    fn from(fault: Fault) -> Refusal {
        Refusal::Packet(fault)
    }
}

// What became of an accepted packet's connection. The numbers are those that a program is told.
#[derive(Clone, Copy)]
pub enum Change {
    Opened = 1,
    Kept = 2,
    Ended = 3,
}

// What a call answers: a setup or weight call `Done`, a count or tick call a number, a packet call the server and the change. (Not a `Result`: all
// who read one go by the four cases side by side, as `told_by` does.)
#[derive(Clone, Copy)]
pub enum Answer {
    Done,
    Number(u32),
    Passed(ServerNo, Change),
    Refused(Refusal),
}

// An answer, with the state beside it.
#[derive(Clone, Copy)]
pub struct Outcome {
    pub answer: Answer,
    pub director: Director,
}

// A refusal: the state as it is.
pub fn refuse(director: Director, why: Refusal) -> Outcome
    ensures { result ≡ refused_by why director }
{
    Outcome {
        answer: Answer::Refused(why),
        director,
    }
}

// One connection less on server `no`, which has one.
pub fn with_one_less(director: &mut Director, no: ServerNo)
    requires { 1 ≤ count_at director.old.servers no.0 }
    ensures { director.new ≡ with_one_less director.old no.0 }
{
    lower(&mut director.servers, no);
}

// One connection more on server `no`, and another walk.
pub(crate) fn with_one_more(director: &mut Director, no: ServerNo, walk: Walk)
    requires { count_at director.old.servers no.0 < 4294967295 }
    ensures { director.new ≡ with_one_more director.old no.0 walk }
{
    raise(&mut director.servers, no);
    director.walk = walk;
}
