// Legs as numbers of 16 bits.
ghost use Rattle.std.specs.Prelude.{◌≡◌};
ghost use Rattle.streets.specs.Streets.{leg_code, coded};
ghost use Rattle.streets.specs.Meaning.{as_leg};

use super::leg::Leg;

impl From<Leg> for u16 {
    ghost from_gives = { λ leg code. code ≡ leg_code (as_leg leg) };

    // Its street doubled, plus 1 if it is backward.
    fn from(leg: Leg) -> u16 {
        2 * leg.along + u16::from(leg.back)
    }
}

impl From<u16> for Leg {
    ghost from_gives = { λ code leg. as_leg leg ≡ coded code };

    fn from(code: u16) -> Leg {
        Leg {
            along: code / 2,
            back: code % 2 == 1,
        }
    }
}
