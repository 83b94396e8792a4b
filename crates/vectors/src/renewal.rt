// A SYN of a client whose connection both have finished: that one ends, and a new one opens.
use crate::begin;
use director::state::Service;
use sample::begin::{FIRST, SECOND, replicas, service};
use sample::frame::{ACK, FIN, RST, SYN};
use sample::instance::Instance;
use servers::ServerNo;
use std::{fmt, io};
use table::slot::{Slot, SlotNo, slot_at};

// A slot, to be printed: its five words, the address as hex digits.
#[derive(Clone, Copy)]
struct Words(Slot);

impl fmt::Display for Words {
    fn fmt<W: fmt::Write>(&self, f: &mut fmt::Formatter<W>) -> fmt::Result {
        let slot = self.0;
        write!(
            f,
            "phase {}, client {:08x} {}, server {}, last seen {}",
            slot.phase, slot.address, slot.port, slot.server.0, slot.seen
        )
    }
}

// FIN of a client's port and of its server.
fn finish<const WORDS: usize>(
    rt: &impl Print,
    instance: &mut Instance<WORDS>,
    server: u32,
    port: u16,
    clock: u32,
) -> io::Result<()> {
    println!(rt; "  {}", instance.from_client(port, FIN, clock))?;
    println!(rt; "  {}", instance.from_server(server, port, FIN, clock))
}

// The pick sees the count after the old one is taken off: with 1 and 1 it would be server 0.
fn lowered_count(rt: &impl Print) -> io::Result<()> {
    println!(rt; "least-connection, counts 1 and 1: FIN both ways of server 1's client, its SYN")?;
    let mut instance: Instance<10> = Instance::new();
    let least_connection = Service {
        scheduler: 3,
        ..service(2)
    };
    println!(rt; "  {}", instance.set_up(least_connection, replicas()))?;
    println!(rt; "  {}", instance.from_client(40001, SYN, 1))?;
    println!(rt; "  {}", instance.from_client(40002, SYN, 2))?;
    finish(rt, &mut instance, SECOND, 40002, 3)?;
    println!(rt; "  {}", instance.from_client(40002, SYN, 4))
}

// The new one takes the lowest free slot, which need not be the old one's.
fn lower_slot(rt: &impl Print) -> io::Result<()> {
    println!(rt;
        "three clients, FIN both ways of the third, RST of the first; SYN of the third: slots 0 and 2"
    )?;
    let mut instance: Instance<15> = begin(rt)?;
    println!(rt; "  {}", instance.from_client(40001, SYN, 1))?;
    println!(rt; "  {}", instance.from_client(40002, SYN, 2))?;
    println!(rt; "  {}", instance.from_client(40003, SYN, 3))?;
    finish(rt, &mut instance, FIRST, 40003, 4)?;
    println!(rt; "  {}", instance.from_client(40001, RST, 5))?;
    println!(rt; "  {}", instance.from_client(40003, SYN, 6))?;
    println!(rt; "  {}", Words(slot_at(&instance.row, SlotNo(0))))?;
    println!(rt; "  {}", Words(slot_at(&instance.row, SlotNo(2))))
}

// A table of one slot whose connection both have finished.
fn one_finished(rt: &impl Print) -> io::Result<Instance<5>> {
    let mut instance = begin(rt)?;
    println!(rt; "  {}", instance.from_client(40001, SYN, 1))?;
    finish(rt, &mut instance, FIRST, 40001, 2)?;
    Ok(instance)
}

// 13 can't arise.
fn full_table(rt: &impl Print) -> io::Result<()> {
    println!(rt; "one slot: FIN both ways, SYN of the same client")?;
    let mut instance = one_finished(rt)?;
    println!(rt; "  {}", instance.from_client(40001, SYN, 3))
}

// 14, and the old one stays as it was.
fn all_weights_0(rt: &impl Print) -> io::Result<()> {
    println!(rt; "all weights 0: FIN both ways, SYN of the same client; its slot, then an ACK")?;
    let mut instance = one_finished(rt)?;
    println!(rt; "  {}", instance.set_weight(ServerNo(0), 0))?;
    println!(rt; "  {}", instance.from_client(40001, SYN, 3))?;
    println!(rt; "  {}", Words(slot_at(&instance.row, SlotNo(0))))?;
    println!(rt; "  {}", instance.from_client(40001, ACK, 4))?;
    println!(rt; "  {}", Words(slot_at(&instance.row, SlotNo(0))))
}

pub fn renewals(rt: &impl Print) -> io::Result<()> {
    lowered_count(rt)?;
    lower_slot(rt)?;
    full_table(rt)?;
    all_weights_0(rt)
}
