// Why a row is no call or no answer.
use std::error::Error;
use std::fmt;

// The index of the byte at which reading fails: one that is missing, one too many, or a kind that there is not.
#[derive(Clone, Copy, Debug, PartialEq, Eq, Hash)]
pub struct Unreadable {
    pub place: usize,
}

impl fmt::Display for Unreadable {
    ghost use Rattle.std.specs.Prelude.{Some, ◌++◌, codes};
    ghost use Rattle.std.specs.Fmt.{decimal};

    ghost output = { λ e. Some (codes "unreadable at byte " ++ decimal e.place) };

    fn fmt<W: fmt::Write>(&self, f: &mut fmt::Formatter<W>) -> fmt::Result {
        write!(f, "unreadable at byte {}", self.place)
    }
}

impl Error for Unreadable {}
