// A service over two servers, and a state to begin with.
use director::state::{Director, Service};
use scheduler::walk::Walk;
use scheduler::weights::Weights;
use servers::{Server, unused};

// 192.0.2.10, the service's address; 10.1.0.5 and 10.1.0.6, its servers'; 10.0.0.1, where the clients are.
pub const VIRTUAL: u32 = 0xC000020A;

pub const FIRST: u32 = 0x0A010005;

pub const SECOND: u32 = 0x0A010006;

pub const CLIENT: u32 = 0x0A000001;

// A server of a weight.
pub fn replica(address: u32, weight: u16) -> Server {
    Server {
        address,
        port: 6432,
        weight,
        count: 0,
    }
}

// Two servers of weight 1.
pub fn replicas() -> [Server; 64] {
    let mut servers = [unused(); 64];
    servers[0] = replica(FIRST, 1);
    servers[1] = replica(SECOND, 1);
    servers
}

// The service at port 5432, of TCP and round-robin, over n servers.
pub fn service(n: u32) -> Service {
    Service {
        address: VIRTUAL,
        port: 5432,
        protocol: 6,
        scheduler: 1,
        servers: n,
    }
}

// A state to begin with: setup doesn't judge it.
pub fn blank() -> Director {
    Director {
        service: service(0),
        servers: replicas(),
        weights: Weights {
            largest: 0,
            divisor: 0,
        },
        walk: Walk {
            place: None,
            level: 0,
        },
        clock: 0,
    }
}
