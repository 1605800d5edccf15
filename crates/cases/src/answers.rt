// Answers as rows of bytes: every kind, legs both ways, rows that are too short, too long or unknown.
ghost use Rattle.std.specs.Prelude.{◌≡◌, ◌<◌};

use super::check::{check, check_eq};
use std::test::Fail;
use streets::Leg;
use wire::{Answer, LEGS_AT, Unreadable, read_leg, write, write_round};

#[test]
fn good_rows(rt: HostRuntime) -> Result<(), Fail> {
    let cases: [(&[u8], Answer); 7] = [
        (
            &[0, 4, 0, 0, 0, 2, 0, 0, 0],
            Answer::Refused {
                number: 4,
                place: 2,
            },
        ),
        (&[1, 0, 0, 1, 0], Answer::Number(65_536)),
        (&[1, 255, 255, 255, 255], Answer::Number(4_294_967_295)),
        (&[2, 0, 0, 0, 0], Answer::Shortest { legs: 0 }),
        (
            &[2, 3, 0, 0, 0, 0, 0, 1, 0, 255, 255],
            Answer::Shortest { legs: 3 },
        ),
        (
            &[3, 1, 0, 0, 0, 10, 0, 41, 1, 0, 0],
            Answer::SomeRound { legs: 1, low: 297 },
        ),
        (&[4], Answer::Never),
    ];
    for (row, answer) in cases {
        assert_eq!(rt; Answer::try_from(row), Ok(answer));
        written_around(row, answer, &mut [9u8; 16])?;
    }
    Ok(())
}

// The answer is written around the legs that stand in the row, and nothing behind it.
fn written_around(row: &[u8], answer: Answer, bytes: &mut [u8]) -> Result<(), Fail> {
    let n = row.len();
    check(0 < n && n < bytes.len())?;
    check_eq(write(&answer, &mut bytes[0..n - 1]), None)?;
    check_eq(bytes[0], 9)?;
    bytes[1..n].copy_from_slice(&row[1..n]);
    check_eq(write(&answer, bytes), Some(n))?;
    check_eq(&bytes[0..n], row)?;
    check_eq(bytes[n], 9)?;
    check_eq(
        Answer::try_from(&bytes[0..n + 1]),
        Err(Unreadable { place: n }),
    )
}

#[test]
fn bad_rows(rt: HostRuntime) {
    let cases: [(&[u8], usize); 6] = [
        (&[], 0),
        (&[5], 0),
        (&[0, 1, 0, 0, 0], 5),
        (&[2, 1, 0, 0], 4),
        (&[2, 255, 255, 255, 255, 0, 0], 7),
        (&[3, 1, 0, 0, 0, 0, 0, 1, 0, 0], 10),
    ];
    for (row, place) in cases {
        assert_eq!(rt; Answer::try_from(row), Err(Unreadable { place }));
    }
}

fn leg(along: u16, back: bool) -> Leg
    requires { along < 32768 }
    ensures { (result.along ≡ along) × (result.back ≡ back) }
{
    Leg { along, back }
}

// A shortest round over seven bridges: 0 0' 1 5 4' 2 6 6' 3'.
#[test]
fn legs_both_ways(rt: HostRuntime) -> Result<(), Fail> {
    let coded = [
        (leg(0, false), 0u8),
        (leg(0, true), 1),
        (leg(1, false), 2),
        (leg(5, false), 10),
        (leg(4, true), 9),
        (leg(2, false), 4),
        (leg(6, false), 12),
        (leg(6, true), 13),
        (leg(3, true), 7),
    ];
    let round = coded.map(|(leg, _)| leg);
    let mut bytes = [0u8; 44];
    assert_eq!(rt; write_round(&round, None, &mut bytes[0..22]), None);
    assert_eq!(rt; write_round(&round, None, &mut bytes), Some(23));
    assert_eq!(rt;
        Answer::try_from(&bytes[0..23]),
        Ok(Answer::Shortest { legs: 9 })
    );
    let part = &bytes[LEGS_AT..23];
    for (k, (leg, code)) in coded.into_iter().enumerate() {
        assert_eq!(rt; &part[2 * k..2 * k + 2], [code, 0].as_slice());
        assert_eq!(rt; read_leg(part, k), Some(leg));
    }
    assert_eq!(rt; read_leg(part, 9), None);
    assert_eq!(rt; write_round(&round, Some(9), &mut bytes), Some(27));
    assert_eq!(rt;
        Answer::try_from(&bytes[0..27]),
        Ok(Answer::SomeRound { legs: 9, low: 9 })
    );
    Ok(())
}
