// Why a call, or the opening of a town, is refused.
ghost use Rattle.std.specs.Prelude.{◌≡◌};
ghost use Rattle.town.specs.Meaning.{refusal_number, refusal_place};

#[derive(Clone, Copy, Debug, PartialEq, Eq, Hash)]
pub enum Refusal {
    NotThere,
    Length,
    OutOfRange,
    TooLittle,
    Full,
}

// Two cases have the same number, so neither it nor the place can be the enum's own. The text is the program's.
impl Refusal {
    pub fn number(self) -> u32
        ensures { result ≡ refusal_number self }
    {
        match self {
            Refusal::NotThere => 4,
            Refusal::Length => 2,
            Refusal::OutOfRange | Refusal::TooLittle => 3,
            Refusal::Full => 5,
        }
    }

    pub fn place(self) -> u32
        ensures { result ≡ refusal_place self }
    {
        match self {
            Refusal::Length => 2,
            Refusal::TooLittle => 1,
            _ => 0,
        }
    }
}
