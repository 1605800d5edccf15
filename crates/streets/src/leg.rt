// A leg by value.
ghost use Rattle.std.specs.Prelude.{◌<◌};

// A street in one direction. Its number has 15 bits, so that with one more for the direction it fits 16.
#[derive(Clone, Copy, Debug, PartialEq, Eq, Hash)]
pub struct Leg {
    pub along: u16,
    pub back: bool,
    ghost short: { along < 32768 },
}
