// Towns: limits and memory at their bounds, refusals and what they leave, the streets of each corner.
ghost use Rattle.std.specs.Prelude.{◌≡◌};

use super::check::{check, check_eq};
use std::test::Fail;
use streets::Street;
use town::{Limits, Refusal, TownMut, TownRef, open_town};

// Opening is refused, and memory is as it was.
fn not_opened<const N: usize>(
    before: [u32; N],
    corners: u32,
    streets: u32,
    why: Refusal,
) -> Result<(), Fail> {
    let mut memory = before;
    check_eq(open_town(&mut memory, corners, streets), Err(why))?;
    check_eq(memory, before)
}

#[test]
fn limits_out_of_range() -> Result<(), Fail> {
    let cases: [(u32, u32); 7] = [
        (0, 1),
        (257, 1),
        (1, 1_025),
        (0, 1_025),
        (65_537, 0),
        (4_294_967_295, 0),
        (1, 4_294_967_295),
    ];
    for (corners, streets) in cases {
        not_opened([9; 20], corners, streets, Refusal::OutOfRange)?;
    }
    Ok(())
}

#[test]
fn memory_too_small() -> Result<(), Fail> {
    let mut memory = [9u32; 20];
    not_opened([9; 16], 3, 2, Refusal::TooLittle)?;
    not_opened([9; 0], 1, 0, Refusal::TooLittle)?;
    not_opened([9; 20], 256, 1_024, Refusal::TooLittle)?;
    open_town(&mut memory[0..17], 3, 2)?;
    let mut least = [9u32; 5];
    open_town(&mut least, 1, 0)?;
    Ok(())
}

#[test]
fn words(rt: HostRuntime) -> Result<(), Fail> {
    let sizes: [(u32, u32, usize); 4] = [(1, 0, 5), (3, 2, 17), (32, 64, 356), (256, 1_024, 5_380)];
    for (corners, streets, words) in sizes {
        let Some(limits) = Limits::new(corners, streets) else {
            return check(false);
        };
        assert_eq!(rt; limits.words(), words);
    }
    Ok(())
}

// The words of the town's memory. Each test makes its town itself: no function can hand on one in an array of its own.
fn words_of(town: &TownMut<'_>) -> Result<[u32; 24], Fail> {
    check(town.memory.len() == 24)?;
    let mut words = [0; 24];
    words.copy_from_slice(town.memory);
    Ok(words)
}

// A call has this answer, and if it is refused, memory is as it was.
fn answers<F: FnOnce(&mut TownMut<'_>) -> Result<u16, Refusal>>(
    town: &mut TownMut<'_>,
    call: F,
    answer: Result<u16, Refusal>,
) -> Result<(), Fail>
    requires callable { F.IsAlwaysCallable call }
    requires stays { (t : _) (r : _) (u : _) → F.post call t r u → u.now.memory.ghost_name ≡ t.now.memory.ghost_name }
    ensures same_memory { town.new.memory.ghost_name ≡ town.old.memory.ghost_name }
{
    let before = words_of(town)?;
    check_eq(call(town), answer)?;
    check(answer.is_ok() || words_of(town)? == before)
}

fn opens(
    town: &mut TownMut<'_>,
    ends: (u32, u32),
    long: u32,
    answer: Result<u16, Refusal>,
) -> Result<(), Fail>
    ensures same_memory { town.new.memory.ghost_name ≡ town.old.memory.ghost_name }
{
    let (one, other) = ends;
    answers(town, |town| town.open_street(one, other, long), answer)
}

fn closes(town: &mut TownMut<'_>, i: u32, answer: Result<u16, Refusal>) -> Result<(), Fail>
    ensures same_memory { town.new.memory.ghost_name ≡ town.old.memory.ghost_name }
{
    answers(town, |town| town.close_street(i), answer)
}

#[test]
fn refusals() -> Result<(), Fail> {
    let mut memory = [9u32; 24];
    open_town(&mut memory, 5, 3)?;
    let mut town = TownMut {
        memory: &mut memory,
    };
    closes(&mut town, 0, Err(Refusal::NotThere))?;
    opens(&mut town, (5, 0), 1, Err(Refusal::NotThere))?;
    opens(&mut town, (0, 5), 0, Err(Refusal::NotThere))?;
    opens(&mut town, (65_535, 0), 1, Err(Refusal::NotThere))?;
    opens(&mut town, (0, 65_536), 1, Err(Refusal::NotThere))?;
    opens(&mut town, (4_294_967_295, 0), 1, Err(Refusal::NotThere))?;
    opens(&mut town, (0, 4), 0, Err(Refusal::Length))?;
    opens(&mut town, (0, 4), 1_000_001, Err(Refusal::Length))?;
    opens(&mut town, (4, 0), 1, Ok(0))?;
    opens(&mut town, (4, 4), 1_000_000, Ok(1))?;
    opens(&mut town, (4, 0), 7, Ok(2))?;
    opens(&mut town, (0, 1), 1, Err(Refusal::Full))?;
    opens(&mut town, (0, 1), 0, Err(Refusal::Length))?;
    opens(&mut town, (0, 5), 0, Err(Refusal::NotThere))?;
    closes(&mut town, 3, Err(Refusal::NotThere))?;
    closes(&mut town, 65_536, Err(Refusal::NotThere))?;
    closes(&mut town, 2, Ok(2))?;
    opens(&mut town, (0, 1), 1, Ok(2))?;
    check_eq(TownRef { memory: &memory }.count(), 3)
}

// The streets of corners 0 to 3 are these.
fn lists(town: &TownMut<'_>, at: [&[u32]; 4]) -> Result<(), Fail> {
    let town = town.read();
    for (c, streets) in (0..4).zip(at) {
        check_eq(town.streets_at(c), streets)?;
    }
    check_eq(town.streets_at(4), &[] as &[u32])?;
    check_eq(town.streets_at(4_294_967_295), &[] as &[u32])
}

#[test]
fn streets_of_corners(rt: HostRuntime) -> Result<(), Fail> {
    let mut memory = [9u32; 24];
    open_town(&mut memory, 4, 3)?;
    let mut town = TownMut {
        memory: &mut memory,
    };
    lists(&town, [&[], &[], &[], &[]])?;
    opens(&mut town, (3, 1), 5, Ok(0))?;
    lists(&town, [&[], &[0], &[], &[0]])?;
    opens(&mut town, (1, 1), 6, Ok(1))?;
    opens(&mut town, (1, 3), 7, Ok(2))?;
    lists(&town, [&[], &[0, 1, 1, 2], &[], &[0, 2]])?;
    closes(&mut town, 0, Ok(0))?;
    lists(&town, [&[], &[0, 0, 1], &[], &[1]])?;
    assert_eq!(rt; town.read().count(), 2);
    assert_eq!(rt;
        town.read().street(1),
        Street {
            one: 1,
            other: 3,
            long: 7
        }
    );
    assert_eq!(rt;
        town.read().street(2),
        Street {
            one: 0,
            other: 0,
            long: 0
        }
    );
    closes(&mut town, 1, Ok(1))?;
    closes(&mut town, 0, Ok(0))?;
    closes(&mut town, 0, Err(Refusal::NotThere))?;
    lists(&town, [&[], &[], &[], &[]])
}

// Fills the largest town: eight ends at each corner.
fn fill(town: &mut TownMut<'_>) -> Result<(), Fail>
    ensures same_memory { town.new.memory.ghost_name ≡ town.old.memory.ghost_name }
{
    for i in 0..1_024 {
        let n = u32::from(i);
        check_eq(town.open_street(n % 256, (7 * n + 3) % 256, n + 1), Ok(i))?;
    }
    Ok(())
}

// Closes the street with the lowest number until there is none.
fn empty(town: &mut TownMut<'_>) -> Result<(), Fail>
    ensures same_memory { town.new.memory.ghost_name ≡ town.old.memory.ghost_name }
{
    for _ in 0..1_024 {
        check_eq(town.close_street(0), Ok(0))?;
    }
    Ok(())
}

#[test]
fn largest_town(rt: HostRuntime) -> Result<(), Fail> {
    let mut memory = [0u32; 5_380];
    open_town(&mut memory, 256, 1_024)?;
    let mut town = TownMut {
        memory: &mut memory,
    };
    fill(&mut town)?;
    assert_eq!(rt; town.open_street(0, 255, 1), Err(Refusal::Full));
    for c in 0..256 {
        assert_eq!(rt; town.read().streets_at(c).len(), 8);
    }
    empty(&mut town)?;
    assert_eq!(rt; town.close_street(0), Err(Refusal::NotThere));
    assert_eq!(rt; TownRef { memory: &memory }.count(), 0);
    Ok(())
}

// Lent again, memory still holds the town as the last call left it.
#[test]
fn lent_again() -> Result<(), Fail> {
    let mut memory = [9u32; 24];
    open_town(&mut memory, 4, 3)?;
    check_eq(
        TownMut {
            memory: &mut memory,
        }
        .open_street(2, 1, 5),
        Ok(0),
    )?;
    check_eq(
        TownRef { memory: &memory }.street(0),
        Street {
            one: 2,
            other: 1,
            long: 5,
        },
    )?;
    check_eq(
        TownMut {
            memory: &mut memory,
        }
        .close_street(0),
        Ok(0),
    )?;
    check_eq(TownRef { memory: &memory }.count(), 0)
}
