// What is written as a row over lent bytes.
ghost use Rattle.std.specs.Prelude.{◌≡◌, ℕ, ◌≤◌, List, length};
ghost use Rattle.wire.specs.Rows.{put, Written};

// A value with a row of bytes. What the row is may depend on the bytes that it is written over, but not how long it is.
pub trait Row {
    ghost row_over: { List ℕ → Self → List ℕ };

    fn size(&self) -> usize
        ensures { (bytes : List ℕ) → length (row_over bytes self.now) ≡ result };

    // Writes the row to the front of the bytes.
    fn put(&self, bytes: &mut [u8])
        requires { length (row_over bytes.old self.now) ≤ length bytes.old }
        ensures { bytes.new ≡ put bytes.old 0 (row_over bytes.old self.now) };
}

// Writes a row to the front of the bytes; its length, since more may be lent, or None if they are too few.
pub fn write<R: Row>(row: &R, bytes: &mut [u8]) -> Option<usize>
    ensures { Written (R.row_over bytes.old row.now) bytes.old result bytes.new }
{
    let size = row.size();
    if bytes.len() < size {
        return None;
    }
    row.put(bytes);
    Some(size)
}
