// Towns opened, and streets opened and closed. Each call takes time linear in corners and streets.
ghost use Rattle.std.specs.Prelude.{◌≡◌, ◌<◌, ◌≤◌, ◌&&◌, [], ◌∷◌, ◌++◌, length, if◌then◌else◌, Some, None, nat_le};
ghost use Rattle.std.specs.Option.{option_map};
ghost use Rattle.std.specs.List.{remove};
ghost use Rattle.streets.specs.Calls.{limiting, longest, opens, closes};
ghost use Rattle.streets.specs.Meaning.{as_street};
ghost use Rattle.town.specs.Layout.{limits_in, streets_in, words};
ghost use Rattle.town.specs.Town.{Proper, Town, Sound};
ghost use Rattle.town.specs.Meaning.{as_limits, answered};
ghost use Rattle.town.specs.Changes.{Opened, Called};

use super::layout::{self, Head};
use super::limit::Limits;
use super::lists::write_lists;
use super::reading::TownRef;
use super::refusal::Refusal;
use streets::Street;

const LONGEST: u32 = 1_000_000;

// The limits, if memory of this size suffices for them.
fn fitting(limits: Limits, size: usize) -> Option<Limits>
    ensures { option_map as_limits result ≡ (if nat_le (words (as_limits limits)) size then Some (as_limits limits) else None) }
{
    (limits.words() <= size).then_some(limits)
}

// A town without streets, whatever the words held before.
#[tactic(auto, using(crate::proofs::Layouts::relisted))]
fn begin(town: &mut [u32], limits: Limits)
    requires { words (as_limits limits) ≤ length town.old }
    ensures { Town (as_limits limits) town.new [] }
{
    layout::put_head(town, limits);
    write_lists(town);
}

// Makes memory a town without streets. The limits are numbers here, since those out of range are refused.
// What lies behind the words that it asks for stays.
pub fn open_town(memory: &mut [u32], corners: u32, streets: u32) -> Result<(), Refusal>
    ensures { Opened (limiting corners streets) memory.old result memory.new }
{
    let Some(limits) = Limits::new(corners, streets) else {
        return Err(Refusal::OutOfRange);
    };
    let Some(limits) = fitting(limits, memory.len()) else {
        return Err(Refusal::TooLittle);
    };
    begin(&mut memory[0..limits.words()], limits);
    Ok(())
}

// The length, if a street may have it.
fn proper_length(long: u32) -> Option<u32>
    ensures { result ≡ (if nat_le 1 long && nat_le long longest then Some long else None) }
{
    (1..=LONGEST).contains(&long).then_some(long)
}

// `add` and `remove` ask for a sound town themselves: a ghost field would have to hold between their writes.

// With one street more.
fn add(town: &mut [u32], s: Street)
    requires holds { Sound town.old }
    requires free { length (streets_in town.old) < (limits_in town.old).streets }
    requires fit { Proper (limits_in town.old) (as_street s) }
    ensures { Town (limits_in town.old) town.new (streets_in town.old ++ as_street s ∷ []) }
{
    let n = Head { memory: town }.count();
    layout::put_street(town, n, s);
    layout::set_count(town, n + 1);
    write_lists(town);
}

// Without the i-th street, and the later ones down by one.
fn remove(town: &mut [u32], i: u16)
    requires holds { Sound town.old }
    requires there { i < length (streets_in town.old) }
    ensures { Town (limits_in town.old) town.new (remove (streets_in town.old) i) }
{
    let n = Head { memory: town }.count();
    layout::move_down(town, i, n);
    layout::set_count(town, n - 1);
    write_lists(town);
}

// The town that lent memory holds, to change. It stays in the same memory.
#[derive(Debug, Drop)]
pub struct TownMut<'m> {
    pub memory: &'m mut [u32],
    pub ghost sound: { Sound memory.now },
}

impl TownMut<'_> {
    pub fn read(&self) -> TownRef<'_>
        ensures { result.memory.now ≡ self.now.memory.now }
    {
        TownRef {
            memory: self.memory,
        }
    }

    // Opens a street, and answers with its number. Numbers here: a `Street` is the three together, once they are checked.
    pub fn open_street(&mut self, one: u32, other: u32, long: u32) -> Result<u16, Refusal>
        ensures same_memory { self.new.memory.ghost_name ≡ self.old.memory.ghost_name }
        ensures called { Called self.old.memory.now (opens one other long) (answered result) self.new.memory.now }
    {
        let town = self.read();
        let Some(one) = town.corner(one) else {
            return Err(Refusal::NotThere);
        };
        let Some(other) = town.corner(other) else {
            return Err(Refusal::NotThere);
        };
        let Some(long) = proper_length(long) else {
            return Err(Refusal::Length);
        };
        let Some(i) = town.next_number() else {
            return Err(Refusal::Full);
        };
        let n = town.words();
        add(&mut self.memory[0..n], Street::new(one, other, long));
        Ok(i)
    }

    // Closes the i-th street, and answers with i.
    pub fn close_street(&mut self, i: u32) -> Result<u16, Refusal>
        ensures same_memory { self.new.memory.ghost_name ≡ self.old.memory.ghost_name }
        ensures called { Called self.old.memory.now (closes i) (answered result) self.new.memory.now }
    {
        let town = self.read();
        let Some(i) = town.street_number(i) else {
            return Err(Refusal::NotThere);
        };
        let n = town.words();
        remove(&mut self.memory[0..n], i);
        Ok(i)
    }
}
