// Calls as rows of bytes.
ghost use Rattle.std.specs.Prelude.{◌≡◌};
ghost use Rattle.wire.specs.Format.{call_row, call_in, first_row};
ghost use Rattle.wire.specs.Meaning.{as_call, read_as};

use super::kind::CallKind;
use super::row::Row;
use super::rows::{exactly, put_word, read_word};
use super::unreadable::Unreadable;

// A field holds any number of four bytes, whatever the town's limits.
#[derive(Clone, Copy, Debug, PartialEq, Eq, Hash)]
pub enum Call {
    Open { one: u32, other: u32, long: u32 },
    Close { street: u32 },
    Odd,
    Round { from: u32 },
}

impl TryFrom<&[u8]> for Call {
    type Error = Unreadable;

    ghost try_from_gives = { λ row r. read_as as_call r ≡ call_in row.now };

    // The call that a row is.
    fn try_from(row: &[u8]) -> Result<Call, Unreadable> {
        let Some((&first, fields)) = row.split_first() else {
            return Err(Unreadable { place: 0 });
        };
        let kind = CallKind::try_from(first)?;
        exactly(kind.fields(), fields)?;
        Ok(match kind {
            CallKind::Open => Call::Open {
                one: read_word(fields, 0),
                other: read_word(fields, 4),
                long: read_word(fields, 8),
            },
            CallKind::Close => Call::Close {
                street: read_word(fields, 0),
            },
            CallKind::Odd => Call::Odd,
            CallKind::Round => Call::Round {
                from: read_word(fields, 0),
            },
        })
    }
}

// The row of the first call of a sequence, cut short where the bytes end.
pub fn first_row(calls: &[u8]) -> &[u8]
    ensures { result.now ≡ first_row calls.now }
{
    let Some(&first) = calls.first() else {
        return calls;
    };
    let fields = CallKind::try_from(first).map_or(0, CallKind::fields);
    &calls[..calls.len().min(1 + fields)]
}

impl Call {
    ghost use Rattle.wire.specs.Kinds.{call_kind};

    fn kind(self) -> CallKind
        ensures { result ≡ call_kind self }
    {
        match self {
            Call::Open { .. } => CallKind::Open,
            Call::Close { .. } => CallKind::Close,
            Call::Odd => CallKind::Odd,
            Call::Round { .. } => CallKind::Round,
        }
    }
}

// An enum is cast to its number, as Rust does.
impl Row for Call {
    ghost row_over = { λ _ call. call_row (as_call call) };

    fn size(&self) -> usize {
        1 + self.kind().fields()
    }

    fn put(&self, bytes: &mut [u8]) {
        bytes[0] = self.kind() as u8;
        match *self {
            Call::Open { one, other, long } => {
                put_word(bytes, 1, one);
                put_word(bytes, 5, other);
                put_word(bytes, 9, long);
            }
            Call::Close { street } => put_word(bytes, 1, street),
            Call::Odd => {}
            Call::Round { from } => put_word(bytes, 1, from),
        }
    }
}
