// A town to read.
ghost use Rattle.std.specs.Prelude.{◌≡◌, length, if◌then◌else◌, Some, None, nat_lt};
ghost use Rattle.streets.specs.Streets.{street, ends_at};
ghost use Rattle.streets.specs.Meaning.{as_street};
ghost use Rattle.town.specs.Corners.{streets_at};
ghost use Rattle.town.specs.Layout.{limits_in, streets_in, words};
ghost use Rattle.town.specs.Town.{Sound};
ghost use Rattle.town.specs.Meaning.{as_limits};

use super::layout::Head;
use super::limit::Limits;
use streets::Street;

// The town that lent memory holds, to read.
#[derive(Clone, Copy, Debug, PartialEq, Eq, Hash)]
pub struct TownRef<'m> {
    pub memory: &'m [u32],
    pub ghost sound: { Sound memory.now },
}

// The number, if it is below n. Compared first, so that the conversion costs nothing.
fn below(i: u32, n: u16) -> Option<u16>
    ensures { result ≡ (if nat_lt i n then Some i else None) }
{
    if i >= u32::from(n) {
        return None;
    }
    u16::try_from(i).ok()
}

impl<'m> TownRef<'m> {
    fn head(&self) -> Head<'m>
        ensures { result.memory.now ≡ self.now.memory.now }
    {
        Head {
            memory: self.memory,
        }
    }

    // The limits that the town was opened with.
    pub fn limits(&self) -> Limits
        ensures { as_limits result ≡ limits_in self.now.memory.now }
    {
        self.head().limits()
    }

    // How many words of memory are the town's.
    pub(super) fn words(&self) -> usize
        ensures { result ≡ words (limits_in self.now.memory.now) }
    {
        self.head().words()
    }

    // The number of streets.
    pub fn count(&self) -> u16
        ensures { result ≡ length (streets_in self.now.memory.now) }
    {
        self.head().count()
    }

    // The corner with this number, if the town has it.
    pub fn corner(&self, c: u32) -> Option<u16>
        ensures { result ≡ (if nat_lt c (limits_in self.now.memory.now).corners then Some c else None) }
    {
        below(c, self.head().corners())
    }

    // The number of the i-th street, if the town has it.
    pub(super) fn street_number(&self, i: u32) -> Option<u16>
        ensures { result ≡ (if nat_lt i (length (streets_in self.now.memory.now)) then Some i else None) }
    {
        below(i, self.count())
    }

    // The number of the next street, if the limit allows one more.
    pub(super) fn next_number(&self) -> Option<u16>
        ensures { result ≡ (if nat_lt (length (streets_in self.now.memory.now)) (limits_in self.now.memory.now).streets then Some (length (streets_in self.now.memory.now)) else None) }
    {
        let n = self.count();
        (n < self.limits().streets).then_some(n)
    }

    // The i-th street; past the last, a loop of length 0, as in the definition: an `Option` would give every loop over a
    // corner's list a case that can't come.
    pub fn street(&self, i: u32) -> Street
        ensures { as_street result ≡ street (streets_in self.now.memory.now) i }
    {
        let Some(i) = self.street_number(i) else {
            return Street::new(0, 0, 0);
        };
        self.head().street(i)
    }

    // The streets that have an end at a corner, in increasing order; a loop is there twice.
    #[tactic(auto, using(crate::proofs::Holding::none_there))]
    pub fn streets_at(&self, c: u32) -> &'m [u32]
        ensures { result.now ≡ streets_at (streets_in self.now.memory.now) c }
    {
        let Some(c) = self.corner(c) else {
            return &self.memory[0..0];
        };
        self.list_at(c)
    }

    // The number of ends of streets at a corner: two for each street at most, so it is cast. `try_from` with `unwrap` is
    // no plainer.
    #[tactic(auto, using(crate::proofs::Ends::all_ends, crate::proofs::Layouts::short_degree))]
    pub fn degree(&self, c: u32) -> u16
        ensures { result ≡ ends_at (streets_in self.now.memory.now) c }
    {
        self.streets_at(c).len() as u16
    }
}
