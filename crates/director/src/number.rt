// The numbers of refusals (SCOPE section 4), and what a refusal keeps (SCOPE 5.3, 5.4).
ghost use Rattle.std.specs.Prelude.{◌≡◌};
ghost use Rattle.director.specs.State.{refusal_number, keeps_clock};

use crate::state::Refusal;

// The number given on a refusal.
impl From<Refusal> for u8 {
    ghost from_gives = { λ why number. number ≡ refusal_number why };

    fn from(why: Refusal) -> u8 {
        match why {
            Refusal::Size => 1,
            Refusal::Service => 2,
            Refusal::ServerUnset => 3,
            Refusal::ServerRepeated => 4,
            Refusal::NoServer => 5,
            Refusal::Packet(fault) => u8::from(fault),
            Refusal::OtherEndpoint => 10,
            Refusal::EarlierClock => 11,
            Refusal::NoConnection => 12,
            Refusal::TableFull => 13,
            Refusal::NoWeight => 14,
            Refusal::Unsound => 15,
        }
    }
}

impl Refusal {
    // Whether a refusal keeps the clock and the idle removal; all others change nothing.
    pub fn keeps_clock(self) -> bool
        ensures { result ≡ keeps_clock self }
    {
        matches!(
            self,
            Refusal::NoConnection | Refusal::TableFull | Refusal::NoWeight
        )
    }
}
