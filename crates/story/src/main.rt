// A short story of one director: setup, three connections, a drain by weight 0, FIN both ways, an RST, idle time, and a count that reads zero.
#![tactic(auto)]

use sample::begin::{FIRST, replicas, service};
use sample::frame::{ACK, FIN, RST, SYN};
use sample::instance::Instance;
use sample::output::Output;
use servers::ServerNo;
use std::io;

// Room for four connections.
const WORDS: usize = 20;

// Setup over two servers.
fn begin(rt: &impl Print, instance: &mut Instance<WORDS>) -> io::Result<()> {
    println!(rt; "setup: two servers, round-robin")?;
    println!(rt; "  {}", instance.set_up(service(2), replicas()))
}

// Three clients.
fn connect(rt: &impl Print, instance: &mut Instance<WORDS>) -> io::Result<()> {
    println!(rt; "three clients open")?;
    println!(rt; "  {}", instance.from_client(40001, SYN, 1))?;
    println!(rt; "  {}", instance.from_client(40002, SYN, 2))?;
    println!(rt; "  {}", instance.from_client(40003, SYN, 3))
}

// The first server gets weight 0: its connections stay, new ones go elsewhere.
fn drain(rt: &impl Print, instance: &mut Instance<WORDS>) -> io::Result<()> {
    println!(rt; "server 0 gets weight 0")?;
    println!(rt; "  {}", instance.set_weight(ServerNo(0), 0))?;
    println!(rt; "its client goes on; a new client opens; a fifth finds no room")?;
    println!(rt; "  {}", instance.from_client(40001, ACK, 10))?;
    println!(rt; "  {}", instance.from_client(40004, SYN, 11))?;
    println!(rt; "  {}", instance.from_client(40005, SYN, 12))
}

// FIN both ways.
fn close(rt: &impl Print, instance: &mut Instance<WORDS>) -> io::Result<()> {
    println!(rt; "FIN both ways: a finished connection still counts")?;
    println!(rt; "  {}", instance.from_client(40001, FIN, 20))?;
    println!(rt; "  {}", instance.from_server(FIRST, 40001, FIN, 21))
}

// An RST of the other client.
fn reset(rt: &impl Print, instance: &mut Instance<WORDS>) -> io::Result<()> {
    println!(rt; "an RST of the other client")?;
    println!(rt; "  {}", instance.from_client(40003, RST, 22))
}

// Two minutes after the last packet of the finished connection.
fn wait(rt: &impl Print, instance: &mut Instance<WORDS>) -> io::Result<()> {
    println!(rt; "ticks at 140 and 141: the finished connection is idle")?;
    println!(rt; "  {}", instance.tick(140))?;
    println!(rt; "  {}", instance.tick(141))
}

// The first server's count; at zero it may be unplugged.
fn ask(rt: &impl Print, instance: &Instance<WORDS>) -> io::Result<()> {
    println!(rt; "the count of server 0")?;
    println!(rt; "  {}", instance.count(ServerNo(0)))
}

// The story from its beginning.
fn tell(rt: &impl Print) -> io::Result<()> {
    let mut instance = Instance::new();
    begin(rt, &mut instance)?;
    connect(rt, &mut instance)?;
    drain(rt, &mut instance)?;
    close(rt, &mut instance)?;
    ask(rt, &instance)?;
    reset(rt, &mut instance)?;
    ask(rt, &instance)?;
    wait(rt, &mut instance)?;
    ask(rt, &instance)
}

// (`Output` passes a failed write over, so there is no error to tell.)
fn main() {
    let _ = tell(&Output);
}
