// The examples that are not proved (SCOPE E1 to E4), the published vectors of RFC 1071 and 1624, sums, edits in a row, renewals, header
// checksums, and what the state holds of the weights, run.
#![tactic(auto)]

mod editing;
mod header;
mod renewal;
mod sums;
mod weights;

use crate::editing::edits_in_a_row;
use crate::header::header_checksums;
use crate::renewal::renewals;
use crate::sums::sums;
use crate::weights::weights;
use checksum::{edit, ones_sum};
use sample::begin::{CLIENT, VIRTUAL, replicas, service};
use sample::frame::{SYN, tcp};
use sample::instance::Instance;
use sample::output::Output;
use servers::ServerNo;
use std::io;

// RFC 1071, section 3, and RFC 1624, section 4.
fn checksums(rt: &impl Print) -> io::Result<()> {
    println!(rt; "RFC 1071: the sum of 0001 f203 f4f5 f6f7, and of the same bytes swapped")?;
    println!(rt; "  {:04x}", ones_sum(b"\x00\x01\xf2\x03\xf4\xf5\xf6\xf7"))?;
    println!(rt; "  {:04x}", ones_sum(b"\x01\x00\x03\xf2\xf5\xf4\xf7\xf6"))?;
    println!(rt; "RFC 1624: the checksum dd2f, where 5555 becomes 3285")?;
    println!(rt; "  {:04x}", edit(0xDD2F, 0x5555, 0x3285))
}

// A SYN of a client's port, with a data offset of some words.
fn opening(port: u16, words: u8) -> [u8; 40] {
    let mut packet = tcp(CLIENT, port, VIRTUAL, 5432, SYN);
    packet[32] = words << 4;
    packet
}

// A setup over one server.
fn begin<const WORDS: usize>(rt: &impl Print) -> io::Result<Instance<WORDS>> {
    let mut instance = Instance::new();
    println!(rt; "  {}", instance.set_up(service(1), replicas()))?;
    Ok(instance)
}

// One slot, used, live: a second client gets 13, also when all weights are 0.
fn one_slot(rt: &impl Print) -> io::Result<()> {
    println!(rt; "one slot: setup, a client, a second; all weights 0, the second again")?;
    let mut instance: Instance<5> = begin(rt)?;
    println!(rt; "  {}", instance.from_client(40001, SYN, 1))?;
    println!(rt; "  {}", instance.from_client(40002, SYN, 2))?;
    println!(rt; "  {}", instance.set_weight(ServerNo(0), 0))?;
    println!(rt; "  {}", instance.from_client(40002, SYN, 3))
}

// Clock 50 after 51: 11; 51 after 51: accepted.
fn clocks(rt: &impl Print) -> io::Result<()> {
    println!(rt; "ticks at 51, 50, 51")?;
    let mut instance: Instance<5> = begin(rt)?;
    println!(rt; "  {}", instance.tick(51))?;
    println!(rt; "  {}", instance.tick(50))?;
    println!(rt; "  {}", instance.tick(51))
}

// Data offset 5 with 20 payload bytes passes, 6 gets 9.
fn offsets(rt: &impl Print) -> io::Result<()> {
    println!(rt; "20 payload bytes: data offset 5, then 6")?;
    let mut instance: Instance<10> = begin(rt)?;
    println!(rt; "  {}", instance.inbound(&mut opening(40001, 5), 1))?;
    println!(rt; "  {}", instance.inbound(&mut opening(40002, 6), 1))
}

// Row of 20,480 words passes, 20,485 gets 1.
fn rows(rt: &impl Print) -> io::Result<()> {
    println!(rt; "rows of 20480 and of 20485 words")?;
    let _: Instance<20480> = begin(rt)?;
    let _: Instance<20485> = begin(rt)?;
    Ok(())
}

// All of them.
fn tell(rt: &impl Print) -> io::Result<()> {
    checksums(rt)?;
    sums(rt)?;
    edits_in_a_row(rt)?;
    one_slot(rt)?;
    clocks(rt)?;
    offsets(rt)?;
    rows(rt)?;
    renewals(rt)?;
    header_checksums(rt)?;
    weights(rt)
}

// (`Output` passes a failed write over, so there is no error to tell.)
fn main() {
    let _ = tell(&Output);
}
