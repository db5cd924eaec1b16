// Worked examples over whole numbers, the limits of 64 bits among them.
use crate::common::{is_refused, is_same, leaves, whole};
use answers::truth::Truth;
use interval_arithmetic::compare::{Comparison, compare};
use interval_arithmetic::ends::{contains, intersect};
use interval_arithmetic::greater::satisfy_greater;
use interval_arithmetic::kind::{Arithmetic, Kind, Ranges};
use kinds::whole::WholeRange;

// The whole numbers between two ends, each a number or open.
fn range(low: Option<i64>, high: Option<i64>) -> WholeRange {
    WholeRange { low, high }
}

// The lower and the upper end.
fn ends(r: WholeRange) -> (Option<i64>, Option<i64>) {
    (r.lower(), r.upper())
}

#[test]
fn crossed_ends_are_refused(rt: HostRuntime) {
    assert!(rt; is_refused(WholeRange::try_new(Some(3), Some(2))));
}

#[test]
fn crossed_ends_read_as_swapped(rt: HostRuntime) {
    assert_eq!(rt; whole(7, 4).lower(), Some(4));
    assert_eq!(rt; whole(7, 4).upper(), Some(7));
}

#[test]
fn sums_and_differences(rt: HostRuntime) {
    let sum = WholeRange::forward(Arithmetic::Plus, whole(0, 10), whole(2, 2));
    assert!(rt; is_same(sum, whole(2, 12)));
    assert_eq!(rt; ends(sum), (Some(2), Some(12)));
    let difference = WholeRange::forward(Arithmetic::Minus, whole(0, 10), whole(2, 5));
    assert!(rt; is_same(difference, whole(-5, 8)));
    assert_eq!(rt; ends(difference), (Some(-5), Some(8)));
    // An end outside 64 bits is open.
    let high = WholeRange::forward(Arithmetic::Plus, whole(1, i64::MAX), whole(1, 1));
    assert!(rt; is_same(high, range(Some(2), None)));
    assert_eq!(rt; ends(high), (Some(2), None));
    let negated = whole(i64::MIN, 3).arithmetic_negate();
    assert!(rt; is_same(negated, range(Some(-3), None)));
    assert_eq!(rt; ends(negated), (Some(-3), None));
}

#[test]
fn backward_narrows_both_children(rt: HostRuntime) {
    // a + 2 in 6..12, a in 0..10.
    assert!(rt;
        leaves(
            WholeRange::backward(Arithmetic::Plus, whole(6, 12), whole(0, 10), whole(2, 2)),
            whole(4, 10),
            whole(2, 2),
        )
    );
    assert!(rt;
        leaves(
            WholeRange::backward(Arithmetic::Minus, whole(0, 0), whole(0, 4), whole(3, 9)),
            whole(3, 4),
            whole(3, 4),
        )
    );
    assert!(rt;
        WholeRange::backward(Arithmetic::Plus, whole(9, 9), whole(0, 3), whole(0, 3)).is_none()
    );
}

#[test]
fn neighbours_stop_at_the_limits(rt: HostRuntime) {
    assert_eq!(rt; WholeRange::next(5), Some(6));
    assert_eq!(rt; WholeRange::previous(5), Some(4));
    assert_eq!(rt; WholeRange::next(i64::MAX), None);
    assert_eq!(rt; WholeRange::previous(i64::MIN), None);
}

#[test]
fn counts_stop_at_two_to_the_53(rt: HostRuntime) {
    assert_eq!(rt; whole(0, 10).count(), Some(11));
    assert_eq!(rt; whole(1, 9007199254740992).count(), Some(9007199254740992));
    assert_eq!(rt; whole(0, 9007199254740992).count(), None);
    assert_eq!(rt; range(Some(0), None).count(), None);
    assert_eq!(rt; whole(i64::MIN, i64::MAX).count(), None);
}

#[test]
fn contains_is_true_false_or_unsure(rt: HostRuntime) {
    assert_eq!(rt; contains(whole(0, 9), whole(3, 4)), Truth::True);
    assert_eq!(rt; contains(whole(0, 9), whole(10, 12)), Truth::False);
    assert_eq!(rt; contains(whole(0, 9), whole(3, 12)), Truth::Unsure);
    // An open end lies beyond every value, the limits too.
    assert_eq!(rt;
        contains(whole(i64::MIN, i64::MAX), range(None, None)),
        Truth::Unsure
    );
}

#[test]
fn intersections(rt: HostRuntime) {
    assert!(rt; intersect(whole(0, 4), whole(5, 9)).is_none());
    let shared = intersect(range(None, Some(4)), range(Some(2), None));
    assert!(rt; shared.is_some_and(|r| is_same(r, whole(2, 4))));
    assert_eq!(rt; shared.map(ends), Some((Some(2), Some(4))));
}

#[test]
fn greater_leaves_what_can_satisfy_it(rt: HostRuntime) {
    assert!(rt;
        leaves(
            satisfy_greater(whole(0, 10), whole(3, 20), true),
            whole(4, 10),
            whole(3, 9),
        )
    );
    assert!(rt;
        leaves(
            satisfy_greater(whole(0, 5), whole(5, 9), false),
            whole(5, 5),
            whole(5, 5),
        )
    );
    assert!(rt; satisfy_greater(whole(0, 5), whole(5, 9), true).is_none());
    // Nothing is greater than the greatest number.
    assert!(rt; satisfy_greater(range(None, None), whole(i64::MAX, i64::MAX), true).is_none());
}

#[test]
fn comparisons_forward(rt: HostRuntime) {
    assert_eq!(rt;
        compare(Comparison::Gt, whole(6, 9), whole(5, 5)),
        Truth::True
    );
    assert_eq!(rt;
        compare(Comparison::Gt, whole(0, 5), whole(5, 5)),
        Truth::False
    );
    assert_eq!(rt;
        compare(Comparison::GtEq, whole(0, 5), whole(5, 5)),
        Truth::Unsure
    );
    assert_eq!(rt;
        compare(Comparison::Eq, whole(5, 5), whole(5, 5)),
        Truth::True
    );
    assert_eq!(rt;
        compare(Comparison::Lt, range(None, Some(4)), whole(5, 5)),
        Truth::True
    );
    assert_eq!(rt;
        compare(Comparison::Gt, range(None, None), whole(i64::MAX, i64::MAX)),
        Truth::Unsure
    );
}
