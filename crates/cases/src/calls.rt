// Rows of bytes as calls: every kind, each length around the right one, fields at their ends.
use wire::{Call, Unreadable, first_row, write};

#[test]
fn good_rows(rt: HostRuntime) {
    let cases: [(&[u8], Call); 7] = [
        (
            &[0, 0, 0, 0, 0, 1, 0, 0, 0, 3, 0, 0, 0],
            Call::Open {
                one: 0,
                other: 1,
                long: 3,
            },
        ),
        (
            &[0, 255, 255, 0, 0, 0, 0, 1, 0, 255, 255, 255, 255],
            Call::Open {
                one: 65_535,
                other: 65_536,
                long: 4_294_967_295,
            },
        ),
        (&[1, 0, 0, 0, 0], Call::Close { street: 0 }),
        (&[1, 1, 2, 3, 4], Call::Close { street: 67_305_985 }),
        (&[2], Call::Odd),
        (&[3, 0, 0, 1, 0], Call::Round { from: 65_536 }),
        (
            &[3, 255, 255, 255, 255],
            Call::Round {
                from: 4_294_967_295,
            },
        ),
    ];
    for (row, call) in cases {
        let n = row.len();
        assert!(rt; 0 < n && n < 16);
        assert_eq!(rt; Call::try_from(row), Ok(call));
        let mut bytes = [9u8; 16];
        assert_eq!(rt; write(&call, &mut bytes[0..n - 1]), None);
        assert_eq!(rt; bytes, [9u8; 16]);
        assert_eq!(rt; write(&call, &mut bytes), Some(n));
        assert_eq!(rt; &bytes[0..n], row);
        assert_eq!(rt; bytes[n], 9);
        assert_eq!(rt; first_row(&bytes), row);
    }
}

#[test]
fn lengths(rt: HostRuntime) {
    assert_eq!(rt; Call::try_from(&[] as &[u8]), Err(Unreadable { place: 0 }));
    let kinds: [(u8, usize); 4] = [(0, 13), (1, 5), (2, 1), (3, 5)];
    for (kind, size) in kinds {
        let mut row = [0u8; 20];
        row[0] = kind;
        for n in 1..20 {
            let read = Call::try_from(&row[0..n]);
            assert_eq!(rt; read.is_ok(), n == size);
            if n != size {
                assert_eq!(rt; read, Err(Unreadable { place: n.min(size) }));
            }
        }
    }
}

#[test]
fn unknown_first_bytes(rt: HostRuntime) {
    for kind in 4u8..=255 {
        let row = [kind, 0, 0, 0, 0];
        assert_eq!(rt; Call::try_from(&row[0..1]), Err(Unreadable { place: 0 }));
        assert_eq!(rt;
            Call::try_from(row.as_slice()),
            Err(Unreadable { place: 0 })
        );
        assert_eq!(rt; first_row(&row).len(), 1);
    }
}
