// The one's complement sum by itself, for C: to be counted and compared. The director's archives have no part of this one.
#![tactic(auto)]

ghost use Rattle.std.specs.Prelude.{◌≡◌};
ghost use Rattle.checksum.specs.Ones.{words_of, ones_sum};

use checksum::ones_sum;

#[unsafe(no_mangle)]
pub extern "C" fn sums_ones_sum(bytes: &[u8]) -> u16
    ensures { result ≡ ones_sum (words_of bytes.now) }
{
    ones_sum(bytes)
}
