// The odd corners.
ghost use Rattle.std.specs.Prelude.{◌≡◌, ◌%◌, slice_set};
ghost use Rattle.streets.specs.Streets.{odd_corners};
ghost use Rattle.streets.specs.Calls.{odd, number};
ghost use Rattle.town.specs.Layout.{limits_in, streets_in};
ghost use Rattle.town.specs.Changes.{Called};
ghost use Rattle.reach.specs.Odd.{is_odd, odd_below, over};

use town::TownRef;

fn is_odd(town: &TownRef<'_>, c: u16) -> bool
    ensures { result ≡ is_odd (streets_in town.now.memory.now) c }
{
    town.degree(u32::from(c)) % 2 == 1
}

// Writes c to a place of the list, if there is such a place.
// By hand: tried with `get_mut`, with `iter_mut` and `next`, and with `zip`; what the list is in the end was not proved.
// The place counts what was found, which is also the answer, since the lent list may be too short.
#[tactic(auto, using(std::proofs::lemmas::List::set_past))]
fn put(list: &mut [u32], place: usize, c: u32)
    ensures { list.new ≡ slice_set list.old place c }
{
    if place < list.len() {
        list[place] = c;
    }
}

// The number of odd corners. They are written to the list in increasing order, as many as it has room for.
pub fn odd_corners(town: &TownRef<'_>, list: &mut [u32]) -> u16
    ensures count { result ≡ odd_corners (streets_in town.now.memory.now) (limits_in town.now.memory.now).corners }
    ensures pairs { result % 2 ≡ 0 }
    ensures listed { list.new ≡ over (odd_below (streets_in town.now.memory.now) (limits_in town.now.memory.now).corners) list.old }
{
    let mut found = 0;
    for c in 0..town.limits().corners {
        if is_odd(town, c) {
            put(list, usize::from(found), u32::from(c));
            found += 1;
        }
    }
    found
}

// The answer to the call that asks for the number of odd corners.
pub fn odd(town: &TownRef<'_>) -> u16
    ensures { Called town.now.memory.now odd (number result) town.now.memory.now }
{
    odd_corners(town, &mut [])
}
