// What a helper of a test says where values are not as they should be. It has no handle, so that its own contract binds it.
// The library's `assert_eq!` takes a handle, and a function with a handle may end the program in place of its promise.
ghost use Rattle.std.specs.Prelude.{IsTrue, OnOk};

use std::fmt::Debug;
use std::test::Fail;

pub fn check(holds: bool) -> Result<(), Fail>
    ensures { OnOk result (IsTrue holds) }
{
    if holds {
        Ok(())
    } else {
        Err(Fail::new("a check failed"))
    }
}

pub fn check_eq<T: PartialEq + Debug + Drop>(left: T, right: T) -> Result<(), Fail>
    ensures { OnOk result (IsTrue (T.eq left right)) }
{
    if left == right {
        return Ok(());
    }
    Err(Fail::new(format_args!("{left:?} is not {right:?}")))
}
