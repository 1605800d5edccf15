// Where memory has what: head, streets, and where the corners' lists stand. The lists are written by `lists`. All is one
// slice of words, since the caller lends the memory and there is no heap.
ghost use Rattle.std.specs.Prelude.{◌≡◌, ℕ, suc, ◌+◌, ◌*◌, ◌<◌, ◌≤◌, [], length, if◌then◌else◌, Some, None, slice_set};
ghost use Rattle.std.specs.Option.{option_map};
ghost use Rattle.std.specs.Iterator.{YieldsFirstBy, item_count};
ghost use Rattle.streets.specs.Streets.{street};
ghost use Rattle.streets.specs.Calls.{limiting};
ghost use Rattle.streets.specs.Meaning.{as_street};
ghost use Rattle.town.specs.Corners.{streets_at};
ghost use Rattle.town.specs.Layout.{corner_words, count_at, head_words, word, street_words, streets_left, Readable, limits_in, streets_in, street_from, street_in, starts_from, lists_from, words, budget};
ghost use Rattle.town.specs.Town.{Front, Ready};
ghost use Rattle.town.specs.Meaning.{as_limits};
ghost use Rattle.town.specs.Changes.{in_range};

use super::limit::Limits;
use super::reading::TownRef;
use std::ops::Range;
use streets::Street;

const MOST_CORNERS: u16 = 256;

const MOST_STREETS: u16 = 1024;

// The head: the limits, and the number of streets.
const CORNERS: usize = 0;

const LIMIT: usize = 1;

const COUNT: usize = 2;

const HEAD_WORDS: usize = 3;

// A street: its ends, and its length.
const STREET_WORDS: usize = 3;

// A corner: where its list stops. One word more says where the first begins.
const CORNER_WORDS: usize = 1;

// A street in the lists: once for each end.
const LIST_WORDS: usize = 2;

fn street_from(i: u16) -> usize
    ensures { result ≡ street_from i }
{
    HEAD_WORDS + STREET_WORDS * usize::from(i)
}

// By `short` the ends fit 16 bits, so they are cast: `try_from` with `unwrap` is no plainer.
#[tactic(auto, unfolding(crate::specs::Layout::street_in))]
fn street_at(words: &[u32], i: u16) -> Street
    requires there { street_from i + 2 < length words.now }
    requires short { (word words.now (street_from i) < 65536) × (word words.now (street_from i + 1) < 65536) }
    ensures { as_street result ≡ street_in words.now i }
{
    let at = street_from(i);
    Street::new(words[at] as u16, words[at + 1] as u16, words[at + 2])
}

impl Limits {
    // Numbers here: `Limits` is the two together, once they are in range.
    pub fn new(corners: u32, streets: u32) -> Option<Limits>
        ensures { option_map as_limits result ≡ (if in_range (limiting corners streets) then Some (limiting corners streets) else None) }
    {
        let corners = u16::try_from(corners).ok()?;
        let streets = u16::try_from(streets).ok()?;
        if !(1..=MOST_CORNERS).contains(&corners) || streets > MOST_STREETS {
            return None;
        }
        Some(Limits { corners, streets })
    }

    pub(crate) fn starts_from(self) -> usize
        ensures { result ≡ starts_from (as_limits self) }
    {
        street_from(self.streets)
    }

    pub(crate) fn lists_from(self) -> usize
        ensures { result ≡ lists_from (as_limits self) }
    {
        self.starts_from() + CORNER_WORDS * usize::from(self.corners) + 1
    }

    // How many words of memory a town with these limits asks for.
    pub fn words(self) -> usize
        ensures is { result ≡ words (as_limits self) }
        ensures within { 4 * result ≤ budget (as_limits self) }
    {
        self.lists_from() + LIST_WORDS * usize::from(self.streets)
    }
}

// The head of a town that has no streets.
pub fn put_head(memory: &mut [u32], limits: Limits)
    requires { words (as_limits limits) ≤ length memory.old }
    ensures { Front (as_limits limits) memory.new [] }
{
    memory[CORNERS] = u32::from(limits.corners);
    memory[LIMIT] = u32::from(limits.streets);
    memory[COUNT] = 0;
}

// Head and streets of a town. The corners' lists need not be those of its streets; where they are, it is a `TownRef`, which
// hands on to this what asks for no more. A `Deref` would be no plainer: `street` asks here that the street is there.
// Limits, counts and ends fit 16 bits by `ready`, so they are cast: `try_from` with `unwrap` is no plainer.
#[derive(Clone, Copy, Debug, PartialEq, Eq, Hash)]
pub struct Head<'m> {
    pub memory: &'m [u32],
    pub ghost ready: { Ready memory.now },
}

impl Head<'_> {
    #[tactic(auto, using(crate::proofs::Layouts::limit_short), unfolding(crate::specs::Layout::limits_in))]
    pub fn limits(&self) -> Limits
        ensures { as_limits result ≡ limits_in self.now.memory.now }
    {
        Limits {
            corners: self.memory[CORNERS] as u16,
            streets: self.memory[LIMIT] as u16,
        }
    }

    // How many words the town has.
    pub fn words(&self) -> usize
        ensures { result ≡ words (limits_in self.now.memory.now) }
    {
        self.limits().words()
    }

    // The place of the first word that says where a corner's list stops.
    pub fn stops_from(&self) -> usize
        ensures { result ≡ suc (starts_from (limits_in self.now.memory.now)) }
    {
        self.limits().starts_from() + 1
    }

    // How many words behind that place the lists begin.
    pub fn lists_behind(&self) -> usize
        ensures { result ≡ corner_words * (limits_in self.now.memory.now).corners }
    {
        CORNER_WORDS * usize::from(self.corners())
    }

    pub fn corners(&self) -> u16
        ensures { result ≡ (limits_in self.now.memory.now).corners }
    {
        self.limits().corners
    }

    #[tactic(auto, using(crate::proofs::Layouts::count_word, crate::proofs::Layouts::count_short))]
    pub fn count(&self) -> u16
        ensures { result ≡ length (streets_in self.now.memory.now) }
    {
        self.memory[COUNT] as u16
    }

    // That it is there is asked: a number that says so would be of one town's memory.
    #[tactic(auto, using(crate::proofs::Layouts::street_read))]
    pub fn street(&self, i: u16) -> Street
        requires { i < length (streets_in self.now.memory.now) }
        ensures { as_street result ≡ street (streets_in self.now.memory.now) i }
    {
        street_at(self.memory, i)
    }
}

// The streets that stand in `words`, in order. What a town has behind them need not be there.
#[derive(Debug, Drop, PartialEq, Eq, Hash)]
pub struct Streets<'m> {
    pub words: &'m [u32],
    pub left: Range<u16>,
    pub ghost readable: { Readable words.now left.end },
}

impl<'m> Streets<'m> {
    pub fn new(words: &'m [u32], count: u16) -> Streets<'m>
        requires { Readable words.now count }
        ensures { streets_left result.words.now result.left.start result.left.end ≡ streets_left words.now 0 count }
    {
        Streets {
            words,
            left: 0..count,
        }
    }
}

impl Iterator for Streets<'_> {
    type Item = Street;

    ghost next_gives = { YieldsFirstBy as_street (λ s. streets_left s.words.now s.left.start s.left.end) };

    ghost remaining = { item_count (λ s. streets_left s.words.now s.left.start s.left.end) };

    #[tactic(auto, using(crate::proofs::Layouts::none_left, crate::proofs::Layouts::one_less_left))]
    fn next(&mut self) -> Option<Street> {
        let i = self.left.next()?;
        Some(street_at(self.words, i))
    }
}

impl<'m> TownRef<'m> {
    // The list of a corner. A u32 is cast to a usize, for which std has no `From`.
    pub(super) fn list_at(&self, c: u16) -> &'m [u32]
        requires { c < (limits_in self.now.memory.now).corners }
        ensures { result.now ≡ streets_at (streets_in self.now.memory.now) c }
    {
        let limits = self.limits();
        let at = limits.starts_from() + usize::from(c);
        let lists = limits.lists_from();
        let start = lists + self.memory[at] as usize;
        let stop = lists + self.memory[at + 1] as usize;
        &self.memory[start..stop]
    }
}

pub fn set_count(memory: &mut [u32], n: u16)
    requires { head_words ≤ length memory.old }
    ensures { memory.new ≡ slice_set memory.old count_at n }
{
    memory[COUNT] = u32::from(n);
}

pub fn put_street(memory: &mut [u32], i: u16, s: Street)
    requires { street_from i + 2 < length memory.old }
    ensures { memory.new ≡ slice_set (slice_set (slice_set memory.old (street_from i) s.one) (street_from i + 1) s.other) (street_from i + 2) s.long }
{
    let at = street_from(i);
    memory[at] = u32::from(s.one);
    memory[at + 1] = u32::from(s.other);
    memory[at + 2] = s.long;
}

// The streets i + 1 to n - 1 each move down by one.
pub fn move_down(memory: &mut [u32], i: u16, n: u16)
    requires there { i < n }
    requires within { street_from n ≤ length memory.old }
    ensures moved { (p : ℕ) → street_from i ≤ p → p + street_words < street_from n → word memory.new p ≡ word memory.old (p + street_words) }
    ensures before { (p : ℕ) → p < street_from i → word memory.new p ≡ word memory.old p }
{
    memory.copy_within(street_from(i + 1)..street_from(n), street_from(i));
}
