// Edits of a checksum in a row, by RFC 1624's equation 3: of one word, there and back, of two words.
use checksum::edit;
use std::io;

// A checksum after one word became a second and then a third.
fn edit_twice(hc: u16, first: u16, second: u16, third: u16) -> u16 {
    edit(edit(hc, first, second), second, third)
}

// By way of the second word, and at once.
fn print_chain(rt: &impl Print, hc: u16, first: u16, second: u16, third: u16) -> io::Result<()> {
    println!(rt; "  {:04x}", edit_twice(hc, first, second, third))?;
    println!(rt; "  {:04x}", edit(hc, first, third))
}

// The same, but where checksum and word are ffff and the word becomes 0000.
fn one_word(rt: &impl Print) -> io::Result<()> {
    println!(rt;
        "edits of one word: dd2f, where 5555 becomes 3285 and then 0000; where it becomes 0000 at once"
    )?;
    print_chain(rt, 0xDD2F, 0x5555, 0x3285, 0x0000)?;
    println!(rt;
        "edits of one word: ffff, where ffff becomes 1234 and then 0000; where it becomes 0000 at once"
    )?;
    print_chain(rt, 0xFFFF, 0xFFFF, 0x1234, 0x0000)
}

// ffff returns as 0000.
fn there_and_back(rt: &impl Print) -> io::Result<()> {
    println!(rt; "there and back: dd2f, then ffff, where 5555 becomes 3285 and then 5555")?;
    println!(rt; "  {:04x}", edit_twice(0xDD2F, 0x5555, 0x3285, 0x5555))?;
    println!(rt; "  {:04x}", edit_twice(0xFFFF, 0x5555, 0x3285, 0x5555))
}

// Two words, each as it was and as it becomes, in both orders.
fn print_orders(rt: &impl Print, hc: u16, one: [u16; 2], other: [u16; 2]) -> io::Result<()> {
    println!(rt;
        "  {:04x}",
        edit(edit(hc, one[0], one[1]), other[0], other[1])
    )?;
    println!(rt;
        "  {:04x}",
        edit(edit(hc, other[0], other[1]), one[0], one[1])
    )
}

// The same, although in the second example only one order has ffff on its way.
fn two_words(rt: &impl Print) -> io::Result<()> {
    println!(rt;
        "edits of two words: dd2f, where 5555 becomes 3285 and then cd7a becomes 1234; in the other order"
    )?;
    print_orders(rt, 0xDD2F, [0x5555, 0x3285], [0xCD7A, 0x1234])?;
    println!(rt;
        "edits of two words: ffff, where ffff becomes 0000 and then 1234 becomes 0000; in the other order"
    )?;
    print_orders(rt, 0xFFFF, [0xFFFF, 0x0000], [0x1234, 0x0000])
}

pub fn edits_in_a_row(rt: &impl Print) -> io::Result<()> {
    one_word(rt)?;
    there_and_back(rt)?;
    two_words(rt)
}
