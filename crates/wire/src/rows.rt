// Rows of bytes, and numbers of four bytes in them, little-endian. A number is told by its place in the whole row, as the
// format counts: handed on as a part, it would ask each caller for the proof that the part is there.
ghost use Rattle.std.specs.Prelude.{◌≡◌, ◌+◌, ◌≤◌, length};
ghost use Rattle.wire.specs.Rows.{word, word_at, put};
ghost use Rattle.wire.specs.Format.{fitting};
ghost use Rattle.wire.specs.Meaning.{read_as};

use super::unreadable::Unreadable;

pub fn read_word(bytes: &[u8], at: usize) -> u32
    requires { at + 4 ≤ length bytes.now }
    ensures { result ≡ word_at bytes.now at }
{
    u32::from_le_bytes(*bytes[at..].first_chunk().unwrap())
}

pub fn put_row(bytes: &mut [u8], at: usize, row: &[u8])
    requires { at + length row.now ≤ length bytes.old }
    ensures { bytes.new ≡ put bytes.old at row.now }
{
    bytes[at..at + row.len()].copy_from_slice(row);
}

pub fn put_word(bytes: &mut [u8], at: usize, n: u32)
    requires { at + 4 ≤ length bytes.old }
    ensures { bytes.new ≡ put bytes.old at (word n) }
{
    put_row(bytes, at, &n.to_le_bytes());
}

// Refuses a row of any other size than its first byte asks for.
pub fn exactly(size: usize, rest: &[u8]) -> Result<(), Unreadable>
    ensures { read_as (λ u. u) result ≡ fitting size rest.now tt }
{
    if rest.len() == size {
        Ok(())
    } else {
        let place = 1 + size.min(rest.len());
        Err(Unreadable { place })
    }
}
