// Sums of bytes that are summed by groups of four as far as that goes, and then by words: long ones, ones that end within a group, and one
// that takes all three folds.
use checksum::ones_sum;
use std::io;

// The most bytes that are summed by groups alone; then a word and a byte more; then two words more, with a 1 in the last.
// (Not inlined: its arrays would lie in the frame of `main`, below those of the long rows.)
#[inline(never)]
fn long(rt: &impl Print) -> io::Result<()> {
    println!(rt;
        "sums of 65532 and of 65535 bytes ff; of 65536 bytes, 01 the last and 00 the others"
    )?;
    let ones = [255; 65535];
    println!(rt; "  {:04x}", ones_sum(&ones[..65532]))?;
    println!(rt; "  {:04x}", ones_sum(&ones))?;
    let mut zeros = [0; 65536];
    zeros[65535] = 1;
    println!(rt; "  {:04x}", ones_sum(&zeros))
}

// A group with a byte after it, a group, and what is less.
fn short(rt: &impl Print) -> io::Result<()> {
    println!(rt; "sums of 01 02 03 04 05, and of its first 4, 3, 2, 1 and 0 bytes")?;
    let bytes = [1, 2, 3, 4, 5];
    for n in (0..=5).rev() {
        println!(rt; "  {:04x}", ones_sum(&bytes[..n]))?;
    }
    Ok(())
}

// Two groups, with a carry left after two folds.
fn folds(rt: &impl Print) -> io::Result<()> {
    println!(rt; "sum of ff ff ff ff 00 01 00 00, whose two groups take three folds")?;
    println!(rt; "  {:04x}", ones_sum(b"\xff\xff\xff\xff\x00\x01\x00\x00"))
}

pub fn sums(rt: &impl Print) -> io::Result<()> {
    long(rt)?;
    short(rt)?;
    folds(rt)
}
