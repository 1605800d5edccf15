// Answers as rows of bytes.
ghost use Rattle.std.specs.Prelude.{◌≡◌, ℕ, ◌+◌, List, map, length, drop, if◌then◌else◌, Ok, Err, nat_le};
ghost use Rattle.streets.specs.Meaning.{as_leg};
ghost use Rattle.wire.specs.Rows.{word_at};
ghost use Rattle.wire.specs.Format.{answer_row, answer_in, legs_at};
ghost use Rattle.wire.specs.Meaning.{as_answer, answer_size, counted, RoundWritten, read_as};

use super::kind::AnswerKind;
use super::legs::write_legs;
use super::row::{Row, write};
use super::rows::{exactly, put_word, read_word};
use super::unreadable::Unreadable;
use streets::Leg;

// Where an answer's legs begin.
pub const LEGS_AT: usize = 5;

// An answer without its legs: it has their count, and they stay in the answer's bytes, from LEGS_AT on.
// A refusal has any number and place: the format carries them and does not judge them, so no enum can.
#[derive(Clone, Copy, Debug, PartialEq, Eq, Hash)]
pub enum Answer {
    Refused { number: u32, place: u32 },
    Number(u32),
    Shortest { legs: u32 },
    SomeRound { legs: u32, low: u32 },
    Never,
}

impl Answer {
    ghost use Rattle.wire.specs.Kinds.{answer_kind};

    fn kind(self) -> AnswerKind
        ensures { result ≡ answer_kind self }
    {
        match self {
            Answer::Refused { .. } => AnswerKind::Refused,
            Answer::Number(_) => AnswerKind::Number,
            Answer::Shortest { .. } => AnswerKind::Shortest,
            Answer::SomeRound { .. } => AnswerKind::SomeRound,
            Answer::Never => AnswerKind::Never,
        }
    }
}

// An answer's row is written around its legs, which are in `bytes` already.
// A u32 is cast to a usize, for which std has no `From`; an enum to its number, as Rust does.
impl Row for Answer {
    ghost row_over = { λ bytes answer. answer_row (as_answer (drop legs_at bytes) answer) };

    #[tactic(auto, using(crate::proofs::Rounds::length_answer_row))]
    fn size(&self) -> usize
        ensures is { result ≡ answer_size self.now }
        ensures always { (bytes : List ℕ) → length (answer_row (as_answer (drop legs_at bytes) self.now)) ≡ result }
    {
        let legs = match *self {
            Answer::Shortest { legs } | Answer::SomeRound { legs, .. } => legs,
            _ => 0,
        };
        1 + self.kind().fields() + 2 * legs as usize
    }

    fn put(&self, bytes: &mut [u8]) {
        bytes[0] = self.kind() as u8;
        match *self {
            Answer::Refused { number, place } => {
                put_word(bytes, 1, number);
                put_word(bytes, 5, place);
            }
            Answer::Number(n) => put_word(bytes, 1, n),
            Answer::Shortest { legs } => put_word(bytes, 1, legs),
            Answer::SomeRound { legs, low } => {
                put_word(bytes, 1, legs);
                put_word(bytes, LEGS_AT + 2 * legs as usize, low);
            }
            Answer::Never => {}
        }
    }
}

// The answer of a round by its count of legs.
fn counting(legs: u32, low: Option<u32>) -> Answer
    ensures { result ≡ counted legs low }
{
    match low {
        None => Answer::Shortest { legs },
        Some(low) => Answer::SomeRound { legs, low },
    }
}

// Writes the answer of a round, with its legs; its length, since more may be lent.
pub fn write_round(legs: &[Leg], low: Option<u32>, bytes: &mut [u8]) -> Option<usize>
    ensures { RoundWritten (map as_leg legs.now) low bytes.old result bytes.new }
{
    let count = u32::try_from(legs.len()).ok()?;
    let answer = counting(count, low);
    if bytes.len() < answer.size() {
        return None;
    }
    write_legs(&mut bytes[LEGS_AT..], legs)?;
    write(&answer, bytes)
}

// The count of legs, which comes first in a row that has some.
fn read_count(rest: &[u8]) -> Result<u32, Unreadable>
    ensures { read_as (λ n. n) result ≡ (if nat_le 4 (length rest.now) then Ok (word_at rest.now 0) else Err (1 + length rest.now)) }
{
    if rest.len() < 4 {
        return Err(Unreadable {
            place: 1 + rest.len(),
        });
    }
    Ok(read_word(rest, 0))
}

impl TryFrom<&[u8]> for Answer {
    type Error = Unreadable;

    ghost try_from_gives = { λ row r. read_as (as_answer (drop legs_at row.now)) r ≡ answer_in row.now };

    // The answer that a row is, its legs left where they are. It begins as reading a call does: a function for that would
    // need a bound whose error is fixed. Each case checks its own size, so that kinds are told apart once, which is faster.
    // A u32 is cast to a usize, for which std has no `From`.
    fn try_from(row: &[u8]) -> Result<Answer, Unreadable> {
        let Some((&first, rest)) = row.split_first() else {
            return Err(Unreadable { place: 0 });
        };
        let kind = AnswerKind::try_from(first)?;
        match kind {
            AnswerKind::Refused => {
                exactly(kind.fields(), rest)?;
                Ok(Answer::Refused {
                    number: read_word(rest, 0),
                    place: read_word(rest, 4),
                })
            }
            AnswerKind::Number => {
                exactly(kind.fields(), rest)?;
                Ok(Answer::Number(read_word(rest, 0)))
            }
            AnswerKind::Shortest => {
                let legs = read_count(rest)?;
                exactly(kind.fields() + 2 * legs as usize, rest)?;
                Ok(Answer::Shortest { legs })
            }
            AnswerKind::SomeRound => {
                let legs = read_count(rest)?;
                exactly(kind.fields() + 2 * legs as usize, rest)?;
                Ok(Answer::SomeRound {
                    legs,
                    low: read_word(rest, rest.len() - 4),
                })
            }
            AnswerKind::Never => {
                exactly(kind.fields(), rest)?;
                Ok(Answer::Never)
            }
        }
    }
}
