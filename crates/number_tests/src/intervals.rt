//! Intervals combined and compared on worked examples.

ghost use Rattle.std.specs.Prelude.{◌≡◌, ◌↔◌, IsTrue};
ghost use Rattle.num_ends.specs.Arithmetic.{HasPlaces};

use num_ends::{Dec, End, Interval, List, NoMemory, write_dec};
use std::alloc::Global;
use std::process::Abort;

const LARGEST: i128 = i128::MAX;

fn is_whole_end(end: &End) -> bool
    ensures { IsTrue result ↔ HasPlaces 0 end.now }
{
    match end {
        End::NegInf => true,
        End::Excl(d) => d.p == 0,
        End::Incl(d) => d.p == 0,
        End::PosInf => true,
    }
}

/// Whether the finite ends have no places.
fn is_whole(interval: &Interval) -> bool
    ensures { IsTrue result ↔ (HasPlaces 0 interval.now.0 × HasPlaces 0 interval.now.1) }
{
    is_whole_end(&interval.lower()) && is_whole_end(&interval.upper())
}

/// The product, the sum and the difference.
fn combined(rt: &impl Abort, i: Interval, j: Interval) -> (Interval, Interval, Interval) {
    assert!(rt; is_whole(&i));
    assert!(rt; is_whole(&j));
    (i.mul(j), i.add(j), i.sub(j))
}

fn expect_combined(
    rt: &impl Abort,
    alloc: Global,
    found: &(Interval, Interval, Interval),
    want: (&[u8], &[u8], &[u8]),
) {
    expect_shown(rt, alloc, found.0, want.0);
    expect_shown(rt, alloc, found.1, want.1);
    expect_shown(rt, alloc, found.2, want.2);
}

fn between(rt: &impl Abort, lower: End, upper: End) -> Interval
    ensures { result ≡ (lower, upper) }
{
    match Interval::of(lower, upper) {
        Some(interval) => interval,
        None => panic!(rt; "empty"),
    }
}

fn write_end(alloc: Global, out: &mut List<u8>, end: &End) -> Result<(), NoMemory> {
    match end {
        End::NegInf => out.extend_from_slice(b"-inf"),
        End::Excl(d) => write_dec(alloc, out, *d),
        End::Incl(d) => write_dec(alloc, out, *d),
        End::PosInf => out.extend_from_slice(b"inf"),
    }
}

fn shown(alloc: Global, interval: Interval) -> Result<List<u8>, NoMemory> {
    let mut out = List::new(alloc);
    let lower = interval.lower();
    let upper = interval.upper();
    out.push(if matches!(lower, End::Incl(_)) {
        b'['
    } else {
        b'('
    })?;
    write_end(alloc, &mut out, &lower)?;
    out.push(b',')?;
    write_end(alloc, &mut out, &upper)?;
    out.push(if matches!(upper, End::Incl(_)) {
        b']'
    } else {
        b')'
    })?;
    Ok(out)
}

fn expect_shown(rt: &impl Abort, alloc: Global, interval: Interval, want: &[u8]) {
    match shown(alloc, interval) {
        Ok(text) => assert!(rt; text.as_slice() == want),
        Err(_) => panic!(rt; "no memory"),
    }
}

fn open(n: i64) -> End {
    End::Excl(Dec {
        n: i128::from(n),
        p: 0,
    })
}

fn closed(n: i64) -> End {
    End::Incl(Dec {
        n: i128::from(n),
        p: 0,
    })
}

#[test]
fn intervals_are_combined(rt: HostRuntime) {
    let rows: [(End, End, End, End, &[u8], &[u8], &[u8]); 9] = [
        (
            closed(-2),
            open(3),
            open(1),
            closed(4),
            b"[-8,12)",
            b"(-1,7)",
            b"[-6,2)",
        ),
        (
            closed(0),
            closed(0),
            closed(0),
            End::PosInf,
            b"[0,0]",
            b"[0,inf)",
            b"(-inf,0]",
        ),
        (
            open(0),
            End::PosInf,
            closed(-1),
            closed(0),
            b"(-inf,0]",
            b"(-1,inf)",
            b"(0,inf)",
        ),
        (
            closed(1),
            open(2),
            open(0),
            End::PosInf,
            b"(0,inf)",
            b"(1,inf)",
            b"(-inf,2)",
        ),
        (
            closed(0),
            closed(0),
            End::NegInf,
            End::PosInf,
            b"[0,0]",
            b"(-inf,inf)",
            b"(-inf,inf)",
        ),
        (
            open(0),
            open(1),
            closed(-1),
            closed(1),
            b"(-1,1)",
            b"(-1,2)",
            b"(-1,2)",
        ),
        (
            open(-1),
            open(0),
            open(-1),
            open(0),
            b"(0,1)",
            b"(-2,0)",
            b"(-1,1)",
        ),
        (
            closed(2),
            closed(2),
            End::NegInf,
            open(-1),
            b"(-inf,-2)",
            b"(-inf,1)",
            b"(3,inf)",
        ),
        (
            open(-1),
            End::PosInf,
            End::NegInf,
            End::PosInf,
            b"(-inf,inf)",
            b"(-inf,inf)",
            b"(-inf,inf)",
        ),
    ];
    for (a, b, c, d, product, sum, difference) in rows {
        let found = combined(&rt, between(&rt, a, b), between(&rt, c, d));
        expect_combined(&rt, rt.alloc(), &found, (product, sum, difference));
    }
}

#[test]
fn ends_past_the_range_move_outward(rt: HostRuntime) {
    let top = Dec { n: LARGEST, p: 0 };
    let bottom = Dec { n: -LARGEST, p: 0 };
    let two_to_three = between(&rt, closed(2), open(3));
    let found = combined(&rt, Interval::point(top), two_to_three);
    expect_combined(
        &rt,
        rt.alloc(),
        &found,
        (
            b"[170141183460469231731687303715884105727,inf)",
            b"[170141183460469231731687303715884105727,inf)",
            b"(170141183460469231731687303715884105724,170141183460469231731687303715884105725]",
        ),
    );
    let found = combined(
        &rt,
        Interval::point(bottom),
        between(&rt, closed(2), open(3)),
    );
    expect_combined(
        &rt,
        rt.alloc(),
        &found,
        (
            b"(-inf,-170141183460469231731687303715884105727]",
            b"[-170141183460469231731687303715884105725,-170141183460469231731687303715884105724)",
            b"(-inf,-170141183460469231731687303715884105727]",
        ),
    );
    let found = combined(
        &rt,
        between(&rt, open(0), End::Excl(top)),
        between(&rt, open(0), closed(1)),
    );
    expect_combined(
        &rt,
        rt.alloc(),
        &found,
        (
            b"(0,170141183460469231731687303715884105727)",
            b"(0,inf)",
            b"(-1,170141183460469231731687303715884105727)",
        ),
    );
    let found = combined(
        &rt,
        between(&rt, End::Excl(bottom), closed(0)),
        Interval::point(Dec { n: 0, p: 0 }),
    );
    expect_combined(
        &rt,
        rt.alloc(),
        &found,
        (
            b"[0,0]",
            b"(-170141183460469231731687303715884105727,0]",
            b"(-170141183460469231731687303715884105727,0]",
        ),
    );
    let wide = between(
        &rt,
        closed(0),
        End::Incl(Dec {
            n: 20_000_000_000_000_000_000_000_000_000_000_000_000,
            p: 0,
        }),
    );
    assert!(rt; is_whole(&wide));
    expect_shown(&rt, rt.alloc(), wide.outward(1), b"[0,inf)");
    let low = between(
        &rt,
        End::Excl(bottom),
        End::Excl(Dec {
            n: 1 - LARGEST,
            p: 0,
        }),
    );
    assert!(rt; is_whole(&low));
    expect_shown(
        &rt,
        rt.alloc(),
        low.outward(1),
        b"(-inf,-17014118346046923173168730371588410572.7]",
    );
}

#[test]
fn intervals_are_compared(rt: HostRuntime) {
    let five = Interval::point(Dec { n: 5, p: 0 });
    let three_to_five = between(&rt, open(3), closed(5));
    let two_to_three = between(&rt, closed(2), closed(3));
    assert!(rt; !five.may_less(three_to_five));
    assert!(rt; five.may_less_equal(three_to_five));
    assert!(rt; five.may_equal(three_to_five));
    assert!(rt; two_to_three.may_less(three_to_five));
    assert!(rt; !three_to_five.may_less_equal(two_to_three));
    assert!(rt; !three_to_five.has(Dec { n: 300, p: 2 }));
    assert!(rt; three_to_five.has(Dec { n: 301, p: 2 }));
    assert!(rt; five.within(three_to_five));
    assert!(rt; !two_to_three.within(three_to_five));
    assert!(rt; Interval::of(open(3), closed(3)).is_none());
    expect_shown(&rt, rt.alloc(), three_to_five.hull(two_to_three), b"[2,5]");
    expect_shown(&rt, rt.alloc(), Interval::whole().hull(five), b"(-inf,inf)");
}
