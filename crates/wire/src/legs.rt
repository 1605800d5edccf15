// Legs of two bytes, in the part of an answer that is theirs. A leg is told by its place, as an element of a slice is.
ghost use Rattle.std.specs.Prelude.{◌≡◌, ◌+◌, ◌*◌, ◌≤◌, map, length, if◌then◌else◌, Some, None, nat_le};
ghost use Rattle.std.specs.Option.{option_map};
ghost use Rattle.streets.specs.Meaning.{as_leg};
ghost use Rattle.wire.specs.Rows.{put};
ghost use Rattle.wire.specs.Format.{leg_at, leg_row, legs_row};

use super::rows::put_row;
use streets::Leg;

// The k-th leg, if the part has so many.
pub fn read_leg(part: &[u8], k: usize) -> Option<Leg>
    ensures { option_map as_leg result ≡ (if nat_le (2 * k + 2) (length part.now) then Some (leg_at part.now (2 * k)) else None) }
{
    if k >= part.len() / 2 {
        return None;
    }
    let code = u16::from_le_bytes(*part[2 * k..].first_chunk().unwrap());
    Some(Leg::from(code))
}

fn put_leg(part: &mut [u8], k: usize, leg: Leg)
    requires { 2 * k + 2 ≤ length part.old }
    ensures { part.new ≡ put part.old (2 * k) (leg_row (as_leg leg)) }
{
    put_row(part, 2 * k, &u16::from(leg).to_le_bytes());
}

// Writes the k-th leg; None, and nothing is written, if the part has no room for so many.
pub fn write_leg(part: &mut [u8], k: usize, leg: Leg) -> Option<()>
    ensures fits { result ≡ (if nat_le (2 * k + 2) (length part.old) then Some tt else None) }
    ensures after { part.new ≡ (if nat_le (2 * k + 2) (length part.old) then put part.old (2 * k) (leg_row (as_leg leg)) else part.old) }
{
    if k >= part.len() / 2 {
        return None;
    }
    put_leg(part, k, leg);
    Some(())
}

// Writes all legs to the front of the part; None, and nothing is written, if it is too short.
pub fn write_legs(part: &mut [u8], legs: &[Leg]) -> Option<()>
    ensures fits { result ≡ (if nat_le (2 * length legs.now) (length part.old) then Some tt else None) }
    ensures after { part.new ≡ (if nat_le (2 * length legs.now) (length part.old) then put part.old 0 (legs_row (map as_leg legs.now)) else part.old) }
{
    if legs.len() > part.len() / 2 {
        return None;
    }
    for (k, leg) in legs.iter().enumerate() {
        put_leg(part, k, *leg);
    }
    Some(())
}
