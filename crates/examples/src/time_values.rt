// Worked examples over stamps, spans and steps, open steps and the limits of 64 bits among them.
use crate::common::{is_refused, is_same, leaves, stamps};
use interval_arithmetic::kind::{Arithmetic, Kind};
use kinds::whole::WholeRange;
use time::{Time, TimeLiteral, TimeRange, TimeSort};

// The range of a sort with these ends.
fn range(sort: TimeSort, low: Option<i64>, high: Option<i64>) -> TimeRange {
    TimeRange {
        sort,
        nanoseconds: WholeRange { low, high },
    }
}

// The spans from `low` to `high`.
fn spans(low: i64, high: i64) -> TimeRange {
    range(TimeSort::Span, Some(low), Some(high))
}

// The steps from `low` to `high`.
fn steps(low: i64, high: i64) -> TimeRange {
    range(TimeSort::Step, Some(low), Some(high))
}

// The value of a sort with so many nanoseconds.
fn value(sort: TimeSort, nanoseconds: i64) -> Time {
    Time { sort, nanoseconds }
}

#[test]
fn results_have_the_sort_that_fits(rt: HostRuntime) {
    let apart = TimeRange::forward(Arithmetic::Minus, stamps(1000, 2000), stamps(100, 200));
    assert!(rt; is_same(apart, spans(800, 1900)));
    let later = TimeRange::forward(Arithmetic::Plus, steps(100, 100), stamps(0, 2000));
    assert!(rt; is_same(later, stamps(100, 2100)));
    assert!(rt; is_same(spans(-2, 3).arithmetic_negate(), spans(-3, 2)));
    assert_eq!(rt;
        TimeRange::fits(Arithmetic::Plus, TimeSort::Stamp, TimeSort::Stamp),
        None
    );
    assert_eq!(rt;
        TimeRange::fits(Arithmetic::Minus, TimeSort::Step, TimeSort::Stamp),
        None
    );
    assert!(rt; !TimeRange::compares(TimeSort::Step) && !TimeRange::columns(TimeSort::Step));
    assert!(rt; !TimeRange::negates(TimeSort::Stamp) && TimeRange::negates(TimeSort::Span));
}

#[test]
fn ends_outside_64_bits_are_open(rt: HostRuntime) {
    let later = TimeRange::forward(Arithmetic::Plus, stamps(0, i64::MAX), spans(1, 1));
    assert!(rt; is_same(later, range(TimeSort::Stamp, Some(1), None)));
    assert!(rt;
        is_same(
            spans(i64::MIN, 3).arithmetic_negate(),
            range(TimeSort::Span, Some(-3), None),
        )
    );
    assert_eq!(rt; TimeRange::next(value(TimeSort::Stamp, i64::MAX)), None);
    assert_eq!(rt; TimeRange::previous(value(TimeSort::Span, i64::MIN)), None);
    assert_eq!(rt; stamps(0, 9007199254740991).count(), Some(9007199254740992));
    assert_eq!(rt; stamps(i64::MIN, i64::MAX).count(), None);
}

#[test]
fn a_step_is_cut_as_a_span(rt: HostRuntime) {
    // stamp + step in 1001..2100.
    let right = TimeRange::backward(
        Arithmetic::Plus,
        stamps(1001, 2100),
        stamps(0, 2000),
        steps(100, 100),
    );
    assert!(rt; leaves(right, stamps(901, 2000), steps(100, 100)));
    // step + stamp in 1001..1100.
    let left = TimeRange::backward(
        Arithmetic::Plus,
        stamps(1001, 1100),
        steps(0, 5000),
        stamps(0, 2000),
    );
    assert!(rt; leaves(left, steps(0, 1100), stamps(0, 1100)));
    // A sum of a stamp and a step is no span.
    let none = TimeRange::backward(Arithmetic::Plus, spans(0, 9), stamps(0, 9), steps(0, 9));
    assert!(rt; none.is_none());
}

#[test]
fn a_step_with_an_open_end_stays(rt: HostRuntime) {
    let open = range(TimeSort::Step, None, Some(100));
    let right = TimeRange::backward(Arithmetic::Plus, stamps(1001, 1100), stamps(0, 2000), open);
    assert!(rt; leaves(right, stamps(901, 2000), open));
    let open = range(TimeSort::Step, Some(0), None);
    let left = TimeRange::backward(Arithmetic::Plus, stamps(1001, 1100), open, stamps(0, 2000));
    assert!(rt; leaves(left, open, stamps(0, 1100)));
}

#[test]
fn literals_and_ends_of_one_sort(rt: HostRuntime) {
    let step = TimeLiteral::Step {
        months: 0,
        days: 0,
        nanoseconds: 5,
    };
    assert_eq!(rt; TimeRange::admit(step), Some(value(TimeSort::Step, 5)));
    let months = TimeLiteral::Step {
        months: 1,
        days: 0,
        nanoseconds: 5,
    };
    assert_eq!(rt; TimeRange::admit(months), None);
    let stamp = Some(value(TimeSort::Stamp, 3));
    let span = Some(value(TimeSort::Span, 4));
    let earlier = Some(value(TimeSort::Stamp, 2));
    assert!(rt; is_refused(TimeRange::try_new(TimeSort::Stamp, stamp, span)));
    assert!(rt; is_refused(TimeRange::try_new(TimeSort::Stamp, stamp, earlier)));
    assert!(rt; TimeRange::try_new(TimeSort::Stamp, earlier, stamp).is_ok());
}
