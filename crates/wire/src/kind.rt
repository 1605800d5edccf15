// The first byte of a row, which says what the row is. Calls and answers have a table each: no case is in both.
ghost use Rattle.std.specs.Prelude.{◌≡◌};
ghost use Rattle.wire.specs.Kinds.{call_code, answer_fields, ReadsCallKind, ReadsAnswerKind};
ghost use Rattle.wire.specs.Format.{fields_size};

use super::unreadable::Unreadable;

#[derive(Clone, Copy, Debug, PartialEq, Eq, Hash)]
pub enum CallKind {
    Open = 0,
    Close = 1,
    Odd = 2,
    Round = 3,
}

impl CallKind {
    // How many bytes of fields follow it.
    pub fn fields(self) -> usize
        ensures { result ≡ fields_size (call_code self) }
    {
        match self {
            CallKind::Open => 12,
            CallKind::Close | CallKind::Round => 4,
            CallKind::Odd => 0,
        }
    }
}

// A byte that is no kind is a row's first, so its index is 0.
impl TryFrom<u8> for CallKind {
    type Error = Unreadable;

    ghost try_from_gives = { ReadsCallKind };

    fn try_from(byte: u8) -> Result<CallKind, Unreadable> {
        match byte {
            0 => Ok(CallKind::Open),
            1 => Ok(CallKind::Close),
            2 => Ok(CallKind::Odd),
            3 => Ok(CallKind::Round),
            _ => Err(Unreadable { place: 0 }),
        }
    }
}

#[derive(Clone, Copy, Debug, PartialEq, Eq, Hash)]
pub enum AnswerKind {
    Refused = 0,
    Number = 1,
    Shortest = 2,
    SomeRound = 3,
    Never = 4,
}

impl AnswerKind {
    // How many bytes of fields follow it, beside the legs.
    pub fn fields(self) -> usize
        ensures { result ≡ answer_fields self }
    {
        match self {
            AnswerKind::Refused | AnswerKind::SomeRound => 8,
            AnswerKind::Number | AnswerKind::Shortest => 4,
            AnswerKind::Never => 0,
        }
    }
}

impl TryFrom<u8> for AnswerKind {
    type Error = Unreadable;

    ghost try_from_gives = { ReadsAnswerKind };

    fn try_from(byte: u8) -> Result<AnswerKind, Unreadable> {
        match byte {
            0 => Ok(AnswerKind::Refused),
            1 => Ok(AnswerKind::Number),
            2 => Ok(AnswerKind::Shortest),
            3 => Ok(AnswerKind::SomeRound),
            4 => Ok(AnswerKind::Never),
            _ => Err(Unreadable { place: 0 }),
        }
    }
}
