// Calls that stand one after the other.
ghost use Rattle.std.specs.Prelude.{◌≡◌, [], ◌++◌, length, MatchOption};
ghost use Rattle.std.specs.Iterator.{at_most};
ghost use Rattle.wire.specs.Format.{first_row};

use super::call::first_row;

// The rows of a sequence of calls, of which the last may be cut short.
#[derive(Clone, Copy, Debug, PartialEq, Eq, Hash)]
pub struct CallRows<'a> {
    pub rest: &'a [u8],
}

impl<'a> Iterator for CallRows<'a> {
    type Item = &'a [u8];

    ghost next_gives = { λ s r t. MatchOption r ((s.rest.now ≡ []) × (t.rest.now ≡ [])) (λ row. (row.now ≡ first_row s.rest.now) × (s.rest.now ≡ row.now ++ t.rest.now)) };

    ghost remaining = { λ s. at_most (length s.rest.now) };

    fn next(&mut self) -> Option<&'a [u8]> {
        if self.rest.is_empty() {
            return None;
        }
        let row = first_row(self.rest);
        self.rest = &self.rest[row.len()..];
        Some(row)
    }
}
