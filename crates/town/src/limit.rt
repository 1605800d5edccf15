// The limits of a town.
ghost use Rattle.std.specs.Prelude.{◌<◌, ◌≤◌};
ghost use Rattle.streets.specs.Calls.{most_corners, most_streets};

// The corners are those below `corners`; `streets` bounds the number of streets.
#[derive(Clone, Copy, Debug, PartialEq, Eq, Hash)]
pub struct Limits {
    pub corners: u16,
    pub streets: u16,
    ghost some: { 0 < corners },
    ghost few: { corners ≤ most_corners },
    ghost short: { streets ≤ most_streets },
}
