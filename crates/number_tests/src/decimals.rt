//! Decimals read, written and combined on worked examples.

use num_ends::{Dec, List, NumFault, Range, read_dec, write_dec};
use std::cmp::Ordering;

const LARGEST: i128 = i128::MAX;

#[test]
fn texts_are_read(rt: HostRuntime) {
    let rows: [(&[u8], Result<(i128, u8), NumFault>); 20] = [
        (b"1.50", Ok((15, 1))),
        (b"-0.25", Ok((-25, 2))),
        (b"0.000", Ok((0, 0))),
        (b".5", Ok((5, 1))),
        (b"5.", Ok((5, 0))),
        (b"-0", Ok((0, 0))),
        (b"007", Ok((7, 0))),
        (b"1.000000000000000000000000000000", Ok((1, 0))),
        (b"-.001000000000000000000", Ok((-1, 3))),
        (b"170141183460469231731687303715884105727", Ok((LARGEST, 0))),
        (
            b"170141183460469231731687303715884105728",
            Err(NumFault::Range),
        ),
        (
            b"-170141183460469231731687303715884105728",
            Err(NumFault::Range),
        ),
        (
            b"999999999999999999999999999999999999999999999999999999999999",
            Err(NumFault::Range),
        ),
        (b"1.0000000001", Err(NumFault::TooManyPlaces)),
        (
            b"9999999999999999999999999999999999999999.0000000001",
            Err(NumFault::TooManyPlaces),
        ),
        (b"1e3", Err(NumFault::NotNumber)),
        (b"-", Err(NumFault::NotNumber)),
        (b".", Err(NumFault::NotNumber)),
        (b"", Err(NumFault::NotNumber)),
        (b"1.2.3", Err(NumFault::NotNumber)),
    ];
    for (text, want) in rows {
        match (read_dec(text, 9), want) {
            (Ok(d), Ok(pair)) => assert_eq!(rt; (d.n, d.p), pair),
            (Err(fault), Err(other)) => assert!(rt; fault == other),
            _ => panic!(rt; "another answer"),
        }
    }
    match read_dec(b"0.1234567890123456789", 19) {
        Err(NumFault::Range) => {}
        _ => panic!(rt; "19 places fit no decimal"),
    }
}

#[test]
fn decimals_are_written(rt: HostRuntime) {
    let rows: [(Dec, &[u8]); 7] = [
        (Dec { n: -25, p: 2 }, b"-0.25"),
        (Dec { n: 150, p: 2 }, b"1.5"),
        (Dec { n: 1005, p: 3 }, b"1.005"),
        (Dec { n: 7, p: 18 }, b"0.000000000000000007"),
        (Dec { n: -700, p: 0 }, b"-700"),
        (Dec { n: 0, p: 4 }, b"0"),
        (
            Dec { n: -LARGEST, p: 18 },
            b"-170141183460469231731.687303715884105727",
        ),
    ];
    for (d, want) in rows {
        let mut out = List::new(rt.alloc());
        match write_dec(rt.alloc(), &mut out, d) {
            Ok(()) => assert!(rt; out.as_slice() == want),
            Err(_) => panic!(rt; "no memory"),
        }
    }
}

fn pair(found: Result<Dec, Range>) -> Option<(i128, u8)> {
    match found {
        Ok(d) => Some((d.n, d.p)),
        Err(_) => None,
    }
}

#[test]
fn decimals_are_combined(rt: HostRuntime) {
    let a = Dec { n: 15, p: 1 };
    let b = Dec { n: -25, p: 2 };
    let top = Dec { n: LARGEST, p: 0 };
    assert!(rt; pair(a.align(3)) == Some((1500, 3)));
    assert!(rt; pair(top.align(1)).is_none());
    assert!(rt; pair(a.add(b)) == Some((125, 2)));
    assert!(rt; pair(a.sub(b)) == Some((175, 2)));
    assert!(rt; pair(a.mul(b)) == Some((-375, 3)));
    assert!(rt; pair(top.add(top)).is_none());
    assert!(rt; pair(top.mul(a)).is_none());
    assert!(rt; pair(Dec { n: 1, p: 10 }.mul(Dec { n: 1, p: 9 })).is_none());
    assert!(rt; a.compare(b) == Ok(Ordering::Greater));
    assert!(rt; a.compare(Dec { n: 150, p: 2 }) == Ok(Ordering::Equal));
    assert!(rt; top.compare(a).is_err());
    assert!(rt; top.order(a) == Ordering::Greater);
    assert!(rt; Dec { n: -LARGEST, p: 1 }.order(Dec { n: -LARGEST, p: 2 }) == Ordering::Less);
}

#[test]
fn decimals_are_inverted(rt: HostRuntime) {
    let rows = [
        (Dec { n: 8, p: 0 }, Some((125, 3))),
        (Dec { n: -250, p: 2 }, Some((-4, 1))),
        (Dec { n: 1, p: 18 }, Some((1_000_000_000_000_000_000, 0))),
        (Dec { n: 512, p: 0 }, Some((1_953_125, 9))),
        (Dec { n: 1024, p: 0 }, None),
        (Dec { n: 3, p: 0 }, None),
        (Dec { n: 0, p: 2 }, None),
    ];
    for (d, want) in rows {
        let found = match d.inverse() {
            Some(e) => Some((e.n, e.p)),
            None => None,
        };
        assert!(rt; found == want);
    }
}
