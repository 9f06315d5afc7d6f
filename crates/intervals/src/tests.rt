use crate::Interval;

/// 2^63 and 2^64.
const HALF: i128 = 0x8000_0000_0000_0000;

const WHOLE: i128 = 0x1_0000_0000_0000_0000;

type Ends = (i128, i128);

#[derive(Clone, Copy, Debug, PartialEq, Eq)]
enum Operation {
    Add,
    Sub,
    Mul,
    Div,
    Rem,
    Min,
    Max,
}

const OPERATIONS: [Operation; 7] = [
    Operation::Add,
    Operation::Sub,
    Operation::Mul,
    Operation::Div,
    Operation::Rem,
    Operation::Min,
    Operation::Max,
];

/// Operations, their operands and the ends of what they answer.
const WORKED: [(Operation, Ends, Ends, Option<Ends>); 26] = [
    (Operation::Div, (0, 3), (-2, 2), Some((-3, 3))),
    (Operation::Rem, (-7, 7), (3, 3), Some((-2, 2))),
    (Operation::Div, (-7, -7), (2, 2), Some((-3, -3))),
    (Operation::Div, (5, 5), (0, 0), Some((0, 0))),
    (Operation::Rem, (5, 5), (0, 0), Some((0, 5))),
    (Operation::Add, (0, WHOLE - 1), (1, 1), None),
    (Operation::Add, (0, WHOLE - 2), (1, 1), Some((1, WHOLE - 1))),
    (
        Operation::Add,
        (-HALF, 0),
        (0, HALF - 1),
        Some((-HALF, HALF - 1)),
    ),
    (Operation::Add, (-HALF, -HALF), (-1, -1), None),
    (Operation::Sub, (0, 0), (HALF, HALF), Some((-HALF, -HALF))),
    (Operation::Sub, (0, 0), (HALF, HALF + 1), None),
    (Operation::Sub, (0, WHOLE - 1), (0, 1), None),
    (
        Operation::Mul,
        (WHOLE - 1, WHOLE - 1),
        (WHOLE - 1, WHOLE - 1),
        None,
    ),
    (
        Operation::Mul,
        (WHOLE - 1, WHOLE - 1),
        (0, 1),
        Some((0, WHOLE - 1)),
    ),
    (Operation::Mul, (WHOLE - 1, WHOLE - 1), (-1, 1), None),
    (Operation::Mul, (-HALF, -HALF), (-1, 1), None),
    (Operation::Mul, (-HALF, -HALF), (-1, -1), Some((HALF, HALF))),
    (Operation::Mul, (-HALF, -HALF), (-HALF, -HALF), None),
    (Operation::Mul, (-4, 3), (-2, 5), Some((-20, 15))),
    (Operation::Div, (-HALF, -HALF), (-1, -1), Some((HALF, HALF))),
    (Operation::Div, (-HALF, 1), (-1, 1), None),
    (Operation::Div, (WHOLE - 1, WHOLE - 1), (-1, -1), None),
    (
        Operation::Rem,
        (0, WHOLE - 1),
        (WHOLE - 1, WHOLE - 1),
        Some((0, WHOLE - 2)),
    ),
    (
        Operation::Rem,
        (-HALF, HALF - 1),
        (-HALF, -1),
        Some((-HALF + 1, HALF - 1)),
    ),
    (Operation::Min, (0, WHOLE - 1), (-HALF, 0), Some((-HALF, 0))),
    (
        Operation::Max,
        (-1, 0),
        (0, WHOLE - 1),
        Some((0, WHOLE - 1)),
    ),
];

/// Ends, and whether an interval has them.
const NEW: [(Ends, bool); 8] = [
    ((1, 0), false),
    ((0, 0), true),
    ((0, WHOLE - 1), true),
    ((0, WHOLE), false),
    ((-HALF, HALF - 1), true),
    ((-HALF - 1, 0), false),
    ((-1, HALF), false),
    ((i128::MIN, i128::MAX), false),
];

/// Intervals with their negation, their absolute value, their width and their span.
const ALONE: [(Ends, Option<Ends>, Option<Ends>, u32, u32); 12] = [
    ((-5, 3), Some((-3, 5)), Some((0, 5)), 4, 4),
    ((4, 4), Some((-4, -4)), Some((4, 4)), 0, 4),
    ((0, 9), Some((-9, 0)), Some((0, 9)), 4, 5),
    ((-128, 127), Some((-127, 128)), Some((0, 128)), 8, 8),
    ((-129, -3), Some((3, 129)), Some((3, 129)), 7, 9),
    ((0, 128), Some((-128, 0)), Some((0, 128)), 8, 9),
    ((0, 0), Some((0, 0)), Some((0, 0)), 0, 1),
    ((-1, 0), Some((0, 1)), Some((0, 1)), 1, 1),
    ((-HALF, HALF - 1), None, Some((0, HALF)), 64, 64),
    (
        (-HALF, -HALF),
        Some((HALF, HALF)),
        Some((HALF, HALF)),
        0,
        64,
    ),
    ((0, WHOLE - 1), None, Some((0, WHOLE - 1)), 64, 65),
    ((0, HALF), Some((-HALF, 0)), Some((0, HALF)), 64, 65),
];

/// Intervals, how many numbers of them are added, and the ends of the sums.
const TIMES: [(Ends, u128, Option<Ends>); 8] = [
    ((-2, 3), 0, Some((0, 0))),
    ((-2, 3), 5, Some((-10, 15))),
    ((1, 1), 0xFFFF_FFFF_FFFF_FFFF, Some((WHOLE - 1, WHOLE - 1))),
    ((1, 1), 0x1_0000_0000_0000_0000, None),
    ((-1, 0), 0x8000_0000_0000_0000, Some((-HALF, 0))),
    ((-1, 1), 0x8000_0000_0000_0000, None),
    ((0, 0), u128::MAX, Some((0, 0))),
    ((0, 1), u128::MAX, None),
];

fn interval(ends: Ends) -> Option<Interval> {
    Interval::new(ends.0, ends.1)
}

/// Each pair of ends from -4 to 3 once, for the numbers below 64.
fn small_interval(number: u8) -> Option<Interval> {
    interval((i128::from(number / 8) - 4, i128::from(number % 8) - 4))
}

fn ends_of(interval: Option<Interval>) -> Option<Ends> {
    match interval {
        Some(found) => Some((found.lo, found.hi)),
        None => None,
    }
}

fn apply(operation: Operation, a: &Interval, b: &Interval) -> Option<Interval> {
    match operation {
        Operation::Add => a.add(b),
        Operation::Sub => a.sub(b),
        Operation::Mul => a.mul(b),
        Operation::Div => a.div(b),
        Operation::Rem => a.rem(b),
        Operation::Min => a.min(b),
        Operation::Max => a.max(b),
    }
}

/// The operation at two numbers.
fn value(operation: Operation, x: i128, y: i128) -> i128 {
    match operation {
        Operation::Add => x.wrapping_add(y),
        Operation::Sub => x.wrapping_sub(y),
        Operation::Mul => x.wrapping_mul(y),
        Operation::Div => x.checked_div(y).unwrap_or(0),
        Operation::Rem => x.checked_rem(y).unwrap_or(x),
        Operation::Min => x.min(y),
        Operation::Max => x.max(y),
    }
}

/// The least and the greatest value over all numbers of both intervals.
fn scanned(operation: Operation, a: &Interval, b: &Interval) -> Ends {
    let mut least = value(operation, a.lo, b.lo);
    let mut greatest = least;
    for x in a.lo..=a.hi {
        for y in b.lo..=b.hi {
            let found = value(operation, x, y);
            least = least.min(found);
            greatest = greatest.max(found);
        }
    }
    (least, greatest)
}

#[test]
fn operations_have_the_worked_ends(rt: HostRuntime) {
    for (operation, left, right, want) in &WORKED {
        let answer = match (interval(*left), interval(*right)) {
            (Some(a), Some(b)) => apply(*operation, &a, &b),
            _ => None,
        };
        assert_eq!(rt;
            ends_of(answer),
            *want,
            "{operation:?} of {left:?} and {right:?}"
        );
    }
    for (ends, some) in &NEW {
        assert_eq!(rt; interval(*ends).is_some(), *some, "of {ends:?}");
    }
}

#[test]
fn one_interval_has_the_worked_ends_and_digits(rt: HostRuntime) {
    for (ends, negation, absolute, width, span) in &ALONE {
        let a = interval(*ends).expect(&rt, "the ends are of an interval");
        assert_eq!(rt; ends_of(a.neg()), *negation, "of {ends:?}");
        assert_eq!(rt; ends_of(a.abs()), *absolute, "of {ends:?}");
        assert_eq!(rt; (a.width(), a.span()), (*width, *span), "of {ends:?}");
    }
    for (ends, n, want) in &TIMES {
        let a = interval(*ends).expect(&rt, "the ends are of an interval");
        assert_eq!(rt; ends_of(a.times(*n)), *want, "{n} of {ends:?}");
    }
}

/// The ends are the least and the greatest value; those of a remainder may lie further out.
#[test]
fn small_intervals_have_the_scanned_ends(rt: HostRuntime) {
    for first in 0..64_u8 {
        for second in 0..64_u8 {
            if let (Some(a), Some(b)) = (small_interval(first), small_interval(second)) {
                for operation in &OPERATIONS {
                    let (least, greatest) = scanned(*operation, &a, &b);
                    let answer = apply(*operation, &a, &b);
                    if *operation == Operation::Rem {
                        let held = answer.is_some_and(|c| c.lo <= least && greatest <= c.hi);
                        assert!(rt; held, "{operation:?} of {a:?} and {b:?}");
                    } else {
                        assert_eq!(rt;
                            ends_of(answer),
                            Some((least, greatest)),
                            "{operation:?} of {a:?} and {b:?}"
                        );
                    }
                }
                let both = Some((a.lo.min(b.lo), a.hi.max(b.hi)));
                assert_eq!(rt; ends_of(a.hull(&b)), both, "of {a:?} and {b:?}");
            }
        }
    }
}

/// Compiles and is proved where values of the type may go from thread to thread and be shared by threads.
fn crosses_threads<T: Send + Sync>() {}

#[test]
fn intervals_cross_threads() {
    crosses_threads::<Interval>();
}
