// Breadth-first search from a corner.
ghost use Rattle.std.specs.Prelude.{◌≡◌, ◌+◌, ◌<◌, length, slice_set};
ghost use Rattle.streets.specs.Streets.{leg_code, leaving, stops};
ghost use Rattle.streets.specs.Meaning.{as_leg};
ghost use Rattle.town.specs.Layout.{limits_in, streets_in};
ghost use Rattle.reach.specs.Reach.{entry};
ghost use Rattle.reach.specs.Searching.{HasRoom, Searching};

use streets::Leg;
use town::TownRef;

// The leg along street i that leaves a corner, and where it stops. By `requires` i fits 16 bits, so it is cast:
// `try_from` with `unwrap` is no plainer.
fn leave(town: &TownRef<'_>, here: u16, i: u32) -> (Leg, u16)
    requires { i < length (streets_in town.now.memory.now) }
    ensures leg { as_leg result.0 ≡ leaving (streets_in town.now.memory.now) here i }
    ensures stop { result.1 ≡ stops (streets_in town.now.memory.now) (leaving (streets_in town.now.memory.now) here i) }
{
    let s = town.street(i);
    let leg = Leg {
        along: i as u16,
        back: s.one != here,
    };
    (leg, s.across(here))
}

// What a search has found: a word in each slice for each corner, since memory is lent as words. A corner that is not found
// has the level 0; of the queue the first `found` are used.
#[derive(Debug, Drop)]
struct Finds<'m> {
    corners: u16,
    levels: &'m mut [u32],
    legs: &'m mut [u32],
    queue: &'m mut [u32],
    found: usize,
    ghost room: { HasRoom corners levels.now legs.now queue.now },
}

impl Finds<'_> {
    // Corner x is found by a leg: it has its level, and stands in the queue.
    fn mark(&mut self, x: u16, level: u32, leg: Leg)
        requires there { x < self.old.corners }
        requires place { self.old.found < self.old.corners }
        ensures corners { self.new.corners ≡ self.old.corners }
        ensures same_words { (self.new.levels.ghost_name ≡ self.old.levels.ghost_name) × (self.new.legs.ghost_name ≡ self.old.legs.ghost_name) × (self.new.queue.ghost_name ≡ self.old.queue.ghost_name) }
        ensures level { self.new.levels.now ≡ slice_set self.old.levels.now x level }
        ensures leg { self.new.legs.now ≡ slice_set self.old.legs.now x (leg_code (as_leg leg)) }
        ensures queue { self.new.queue.now ≡ slice_set self.old.queue.now self.old.found x }
        ensures found { self.new.found ≡ self.old.found + 1 }
    {
        self.levels[usize::from(x)] = level;
        self.legs[usize::from(x)] = u32::from(u16::from(leg));
        self.queue[self.found] = u32::from(x);
        self.found += 1;
    }

    // Follows all legs of the next corner in the queue. Its words are corners, so they fit 16 bits and are cast: `try_from`
    // with `unwrap` is no plainer.
    #[tactic(auto, using(crate::proofs::Following::street_there, crate::proofs::Following::stop_there, crate::proofs::Levels::inside_town))]
    fn follow(&mut self, town: &TownRef<'_>, done: usize)
        requires corners { self.old.corners ≡ (limits_in town.now.memory.now).corners }
        requires next { done < self.old.found }
        requires search { Searching (streets_in town.now.memory.now) self.old.corners self.old.levels.now self.old.legs.now self.old.queue.now done self.old.found }
        ensures corners { self.new.corners ≡ self.old.corners }
        ensures same_words { (self.new.levels.ghost_name ≡ self.old.levels.ghost_name) × (self.new.legs.ghost_name ≡ self.old.legs.ghost_name) × (self.new.queue.ghost_name ≡ self.old.queue.ghost_name) }
        ensures search { Searching (streets_in town.now.memory.now) self.new.corners self.new.levels.now self.new.legs.now self.new.queue.now (done + 1) self.new.found }
        ensures asked { entry self.new.queue.now 0 ≡ entry self.old.queue.now 0 }
    {
        let here = self.queue[done] as u16;
        let level = self.levels[usize::from(here)] + 1;
        for i in town.streets_at(u32::from(here)) {
            let (leg, x) = leave(town, here, *i);
            if self.levels[usize::from(x)] == 0 {
                self.mark(x, level, leg);
            }
        }
    }
}
