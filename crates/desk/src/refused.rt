// Why a call was refused, and how that is printed.
ghost use Rattle.std.specs.Prelude.{◌≡◌};
ghost use Rattle.desk.specs.declared.refused.Refused.TheVariants.{Turned, Unread};

use std::error::Error;
use std::fmt;
use town::Refusal;
use wire::Unreadable;

#[derive(Clone, Copy, Debug, PartialEq, Eq, Hash)]
pub enum Refused {
    Unread(Unreadable),
    Turned(Refusal),
}

// One conversion for each error that `?` meets.
impl From<Unreadable> for Refused {
    ghost from_gives = { λ e r. r ≡ Unread e };

    fn from(unreadable: Unreadable) -> Refused {
        Refused::Unread(unreadable)
    }
}

impl From<Refusal> for Refused {
    ghost from_gives = { λ e r. r ≡ Turned e };

    fn from(refusal: Refusal) -> Refused {
        Refused::Turned(refusal)
    }
}

impl Refused {
    ghost use Rattle.desk.specs.Lines.{unreadable};

    // Whether the row is no call: nothing says where the next one begins. A `match` where it is called would have no contract.
    pub fn is_unreadable(&self) -> bool
        ensures { result ≡ unreadable self.now }
    {
        matches!(self, Refused::Unread(_))
    }
}

impl fmt::Display for Refused {
    ghost use Rattle.std.specs.Prelude.{Some};
    ghost use Rattle.desk.specs.Lines.{refused_text, number_of, place_of};

    ghost output = { λ r. Some (refused_text (number_of r) (place_of r)) };

    fn fmt<W: fmt::Write>(&self, f: &mut fmt::Formatter<W>) -> fmt::Result {
        let (number, place) = match self {
            Refused::Unread(unreadable) => (1, unreadable.place),
            // A u32 is cast to a usize, for which std has no `From`.
            Refused::Turned(refusal) => (refusal.number(), refusal.place() as usize),
        };
        write!(f, "refused {number} at {place}")
    }
}

impl Error for Refused {}
