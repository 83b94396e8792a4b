// The Internet checksum: RFC 1071's sum over a slice of bytes, and RFC 1624's edit for one changed word.
#![tactic(auto)]

ghost use Rattle.std.specs.Prelude.{◌≡◌, ◌+◌, ◌<◌, ◌≤◌, length};
ghost use Rattle.checksum.specs.Ones.{carried, ones_add, words_of, word_at, ones_sum, verifies, edited};
ghost use Rattle.checksum.specs.Ones.{groups_of, WholeGroups, total, Foldable, folded};

// The most bytes that are summed by groups before a fold.
const MOST_IN_GROUPS: usize = 65532;

// A sum with its carry out of bit 15 added back.
fn add_carry(sum: u64) -> u64
    ensures { result ≡ carried sum }
{
    sum % 65536 + sum / 65536
}

// The one's complement sum of two words. (The proof shows that `as u16` loses nothing.)
fn ones_add(a: u16, b: u16) -> u16
    ensures { result ≡ ones_add a b }
{
    add_carry(u64::from(a) + u64::from(b)) as u16
}

// The word whose high byte stands at `at`.
pub fn word_at(b: &[u8], at: usize) -> u16
    requires { at + 1 < length b.now }
    ensures { result ≡ word_at b.now at }
{
    u16::from_be_bytes([b[at], b[at + 1]])
}

// The plain sum of the groups of `b`.
#[tactic(auto, using(crate::proofs::Grouping::whole_groups))]
fn groups_sum(b: &[u8]) -> u64
    requires { WholeGroups (length b.now) }
    ensures { result ≡ total (groups_of b.now) }
{
    let (groups, _) = b.as_chunks::<4>();
    let mut sum = 0;
    for group in groups {
        sum += u64::from(u32::from_be_bytes(*group));
    }
    sum
}

// A plain sum as a word: its carry is added back, the carry of that, and once more.
#[tactic(auto, using(crate::proofs::Grouping::folds_fit, crate::proofs::Grouping::three_times), unfolding(crate::specs::Ones::folded))]
fn fold(sum: u64) -> u16
    requires { Foldable sum }
    ensures { result ≡ folded sum }
{
    let once = add_carry(sum);
    let twice = add_carry(once);
    add_carry(twice) as u16
}

// How many of `length` bytes are summed by groups. Any such number is right; the greatest leaves the fewest words.
fn in_groups(length: usize) -> usize
    ensures { WholeGroups result × (result ≤ length) }
{
    length.min(MOST_IN_GROUPS) / 4 * 4
}

// The one's complement sum of the words of `b`; an odd last byte counts as a high byte. The first bytes are summed by groups and what
// is left by words: of an IP header nothing is.
#[tactic(auto, using(crate::proofs::Grouping::front_and_rest))]
pub fn ones_sum(b: &[u8]) -> u16
    ensures { result ≡ ones_sum (words_of b.now) }
{
    let (front, rest) = b.split_at(in_groups(b.len()));
    let (words, odd) = rest.as_chunks::<2>();
    let mut sum = fold(groups_sum(front));
    for word in words {
        sum = ones_add(sum, u16::from_be_bytes(*word));
    }
    match odd {
        [last] => ones_add(sum, u16::from_be_bytes([*last, 0])),
        _ => sum,
    }
}

// Whether the checksum over the bytes of `b` verifies.
pub fn is_valid(b: &[u8]) -> bool
    ensures { result ≡ verifies (words_of b.now) }
{
    ones_sum(b) == u16::MAX
}

// The checksum `hc` after one word changed from `old` to `new`: RFC 1624, equation 3.
#[tactic(auto, unfolding(crate::specs::Ones::edited))]
pub fn edit(hc: u16, old: u16, new: u16) -> u16
    ensures { result ≡ edited hc old new }
{
    !ones_add(ones_add(!hc, !old), new)
}
