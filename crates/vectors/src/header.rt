// Header checksums that don't verify, and one that does though a fresh one differs: P11's packet with one thing changed.
use crate::begin;
use packet::bytes::set_word;
use sample::begin::{CLIENT, VIRTUAL};
use sample::frame::{SYN, tcp};
use sample::instance::Instance;
use std::io;

// P11's packet, with the version and header length, the fragment word, the time to live and the checksum of its header given.
fn p11(version: u8, fragments: u16, time_to_live: u8, checksum: u16) -> [u8; 40] {
    let mut p = tcp(CLIENT, 40000, VIRTUAL, 5432, SYN);
    p[0] = version;
    p[8] = time_to_live;
    set_word(&mut p, 6, fragments);
    set_word(&mut p, 10, checksum);
    set_word(&mut p, 36, 0x325F);
    p
}

// 20, and 6 where the version is wrong too.
fn not_valid(rt: &impl Print) -> io::Result<()> {
    println!(rt;
        "header checksum: a bit of the header turned, the same as a fragment, the same with version 6"
    )?;
    let mut instance: Instance<5> = begin(rt)?;
    println!(rt;
        "  {}",
        instance.inbound(&mut p11(0x45, 0x4000, 0x41, 0x6EC5), 1)
    )?;
    println!(rt;
        "  {}",
        instance.inbound(&mut p11(0x45, 0x6000, 0x41, 0x6EC5), 1)
    )?;
    println!(rt;
        "  {}",
        instance.inbound(&mut p11(0x65, 0x4000, 0x41, 0x6EC5), 1)
    )
}

// The transport part's checksum is not judged.
fn transport_turned(rt: &impl Print) -> io::Result<()> {
    println!(rt; "header checksum: a bit of the transport part turned")?;
    let mut packet = p11(0x45, 0x4000, 0x40, 0x6EC5);
    packet[39] = 1;
    let mut instance: Instance<5> = begin(rt)?;
    println!(rt; "  {}", instance.inbound(&mut packet, 1))
}

// Where the other words sum to FFFF, both 0000 and FFFF verify.
fn ones(rt: &impl Print) -> io::Result<()> {
    println!(rt; "header checksum: ffff in place of 0000")?;
    let mut instance: Instance<5> = begin(rt)?;
    let mut packet = p11(0x45, 0x4000, 0x40, 0xFFFF);
    // the identification, with which the words but the checksum sum to FFFF
    set_word(&mut packet, 4, 0x6EC5);
    println!(rt; "  {}", instance.inbound(&mut packet, 1))
}

pub fn header_checksums(rt: &impl Print) -> io::Result<()> {
    not_valid(rt)?;
    transport_turned(rt)?;
    ones(rt)
}
