// The largest weight and the divisor that the state holds, after a setup and after weight calls, by every scheduler.
use director::state::Service;
use sample::begin::{FIRST, SECOND, replica, replicas, service};
use sample::instance::Instance;
use sample::print::Told;
use scheduler::weights::Weights;
use servers::{Server, ServerNo};
use std::io;

// The answer to a call, and then both numbers that the state after it holds.
fn print_weights(rt: &impl Print, told: Told, instance: &Instance<5>) -> io::Result<()> {
    println!(rt; "  {told}")?;
    let Weights { largest, divisor } = instance.director.weights;
    println!(rt; "  largest weight {largest}, divisor {divisor}")
}

// Three servers, of weights 6, 4 and 0.
fn weighted_replicas() -> [Server; 64] {
    let mut servers = replicas();
    servers[0] = replica(FIRST, 6);
    servers[1] = replica(SECOND, 4);
    servers[2] = replica(SECOND + 1, 0);
    servers
}

// A weight call, and what the state then holds.
fn weigh(rt: &impl Print, instance: &mut Instance<5>, no: ServerNo, weight: u16) -> io::Result<()> {
    let told = instance.set_weight(no, weight);
    print_weights(rt, told, instance)
}

// The paragraph of one scheduler, by its number: a field of `Service`.
fn weights_by(rt: &impl Print, scheduler: u8) -> io::Result<()> {
    println!(rt;
        "largest weight and divisor, scheduler {scheduler}: weights 6, 4, 0; server 0's set to 3 and to 0, server 1's to 0"
    )?;
    let mut instance = Instance::new();
    let chosen = Service {
        scheduler,
        ..service(3)
    };
    let told = instance.set_up(chosen, weighted_replicas());
    print_weights(rt, told, &instance)?;
    weigh(rt, &mut instance, ServerNo(0), 3)?;
    weigh(rt, &mut instance, ServerNo(0), 0)?;
    weigh(rt, &mut instance, ServerNo(1), 0)
}

pub fn weights(rt: &impl Print) -> io::Result<()> {
    for scheduler in 1..=4 {
        weights_by(rt, scheduler)?;
    }
    Ok(())
}
