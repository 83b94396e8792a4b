// A TCP segment in an IPv4 packet, made of its addresses, ports and flags.
use checksum::ones_sum;
use packet::bytes::{set_address, set_word};

pub const FIN: u8 = 1;

pub const SYN: u8 = 2;

pub const RST: u8 = 4;

pub const ACK: u8 = 16;

// An IPv4 header before TCP, its checksum 0, and zeros behind it.
fn header(source: u32, destination: u32) -> [u8; 40] {
    let mut p = [0; 40];
    p[0] = 0x45;
    p[3] = 40;
    p[8] = 64;
    p[9] = 6;
    set_address(&mut p, 12, source);
    set_address(&mut p, 16, destination);
    p
}

// A segment with no data, with a valid header checksum; its own checksum is not judged by a director, and is left 0.
pub fn tcp(
    source: u32,
    source_port: u16,
    destination: u32,
    destination_port: u16,
    flags: u8,
) -> [u8; 40] {
    let mut p = header(source, destination);
    // all behind the header is still 0, so this is the header's sum
    let sum = ones_sum(&p);
    set_word(&mut p, 10, !sum);
    set_word(&mut p, 20, source_port);
    set_word(&mut p, 22, destination_port);
    p[32] = 0x50;
    p[33] = flags;
    p
}
