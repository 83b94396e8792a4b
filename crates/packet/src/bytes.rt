// Numbers in a packet's bytes, the highest byte first: lengths, words and addresses. (Each function here asks that its bytes are there, as
// an index does: a fact about a place and a slice, which no type of either has.)
ghost use Rattle.std.specs.Prelude.{◌≡◌, ◌+◌, ◌<◌, length};
ghost use Rattle.checksum.specs.Ones.{word_at};
ghost use Rattle.packet.specs.Bytes.{address_at, set_word, set_address, header_length};

use checksum::word_at;

// The length that a word at `at` gives.
pub fn length_at(p: &[u8], at: usize) -> usize
    requires { at + 1 < length p.now }
    ensures { result ≡ word_at p.now at }
{
    usize::from(word_at(p, at))
}

// The address whose first byte stands at `at`.
pub fn address_at(p: &[u8], at: usize) -> u32
    requires { at + 3 < length p.now }
    ensures { result ≡ address_at p.now at }
{
    u32::from_be_bytes([p[at], p[at + 1], p[at + 2], p[at + 3]])
}

// The IP header's own length, in bytes.
pub fn header_length(p: &[u8]) -> usize
    requires { 0 < length p.now }
    ensures { result ≡ header_length p.now }
{
    usize::from(p[0] % 16) * 4
}

// Writes a word.
pub fn set_word(b: &mut [u8], at: usize, w: u16)
    requires { at + 1 < length b.old }
    ensures { b.new ≡ set_word b.old at w }
{
    let [high, low] = w.to_be_bytes();
    b[at] = high;
    b[at + 1] = low;
}

// Writes an address. (Halves by arithmetic, as the definition has them; the proof shows that an `as u16` loses nothing.)
pub fn set_address(b: &mut [u8], at: usize, a: u32)
    requires { at + 3 < length b.old }
    ensures { b.new ≡ set_address b.old at a }
{
    set_word(b, at, (a / 65536) as u16);
    set_word(b, at + 2, (a % 65536) as u16);
}
