// What the desk replies to a call.
ghost use Rattle.std.specs.Prelude.{◌≡◌};
ghost use Rattle.wire.specs.Format.{call_in, called};
ghost use Rattle.wire.specs.Meaning.{as_call};
ghost use Rattle.desk.specs.Lines.{Replied};

use super::refused::Refused;
use std::fmt;
use town::TownMut;
use wire::Call;

// A call that changes streets has its number; calls that ask are not answered yet.
#[derive(Clone, Copy, Debug, PartialEq, Eq, Hash)]
pub enum Reply {
    Number(u16),
    Odd,
    Round { from: u32 },
}

impl fmt::Display for Reply {
    ghost use Rattle.std.specs.Prelude.{Some};
    ghost use Rattle.desk.specs.Lines.{reply_text};

    ghost output = { λ r. Some (reply_text r) };

    fn fmt<W: fmt::Write>(&self, f: &mut fmt::Formatter<W>) -> fmt::Result {
        match self {
            Reply::Number(n) => write!(f, "{n}"),
            Reply::Odd => write!(f, "odd"),
            Reply::Round { from } => write!(f, "round {from}"),
        }
    }
}

fn answer(town: &mut TownMut<'_>, call: Call) -> Result<Reply, Refused>
    ensures same_memory { town.new.memory.ghost_name ≡ town.old.memory.ghost_name }
    ensures right { Replied town.old.memory.now (as_call call) result town.new.memory.now }
{
    Ok(match call {
        Call::Open { one, other, long } => Reply::Number(town.open_street(one, other, long)?),
        Call::Close { street } => Reply::Number(town.close_street(street)?),
        Call::Odd => Reply::Odd,
        Call::Round { from } => Reply::Round { from },
    })
}

pub fn answer_row(town: &mut TownMut<'_>, row: &[u8]) -> Result<Reply, Refused>
    ensures same_memory { town.new.memory.ghost_name ≡ town.old.memory.ghost_name }
    ensures right { Replied town.old.memory.now (called (call_in row.now)) result town.new.memory.now }
{
    answer(town, Call::try_from(row)?)
}
