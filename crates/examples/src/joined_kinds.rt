// Worked examples over three kinds in one: whole numbers, beside time joined with whole numbers again.
use crate::common::{is_refused, is_same, leaves, stamps as time_stamps, whole};
use answers::truth::Truth;
use interval_arithmetic::compare::{Comparison, compare};
use interval_arithmetic::ends::{intersect, try_new};
use interval_arithmetic::greater::satisfy_greater;
use interval_arithmetic::kind::{Arithmetic, Kind, Ranges};
use joined::Joined;
use kinds::whole::{WholeRange, WholeSort};
use time::TimeRange;

type Three = Joined<WholeRange, Joined<TimeRange, WholeRange>>;

// Whole numbers, as ranges of the first kind.
fn first(low: i64, high: i64) -> Three {
    Joined::First(whole(low, high))
}

// Stamps, as ranges of the second kind.
fn stamps(low: i64, high: i64) -> Three {
    Joined::Second(Joined::First(time_stamps(low, high)))
}

// Whole numbers again, as ranges of the third kind.
fn third(low: i64, high: i64) -> Three {
    Joined::Second(Joined::Second(whole(low, high)))
}

#[test]
fn questions_go_to_the_kind_they_are_about(rt: HostRuntime) {
    assert!(rt;
        is_same(
            Three::forward(Arithmetic::Plus, third(0, 10), third(2, 2)),
            third(2, 12),
        )
    );
    assert!(rt;
        leaves(
            Three::backward(Arithmetic::Plus, third(6, 12), third(0, 10), third(2, 2)),
            third(4, 10),
            third(2, 2),
        )
    );
    assert!(rt;
        leaves(
            satisfy_greater(stamps(0, 10), stamps(3, 20), true),
            stamps(4, 10),
            stamps(3, 9),
        )
    );
    assert_eq!(rt; stamps(0, 10).count(), Some(11));
}

#[test]
fn nothing_goes_across_kinds(rt: HostRuntime) {
    assert!(rt; intersect(first(0, 9), third(0, 9)).is_none());
    assert!(rt; Three::backward(Arithmetic::Plus, third(0, 9), first(0, 9), third(0, 9)).is_none());
    assert!(rt; !Three::same_sort(first(0, 9).sort(), third(0, 9).sort()));
    assert!(rt; Three::fits(Arithmetic::Minus, stamps(0, 9).sort(), first(0, 9).sort()).is_none());
    assert_eq!(rt;
        compare(Comparison::Lt, first(0, 9), stamps(10, 20)),
        Truth::Unsure
    );
    let across = try_new::<Three>(
        Joined::First(WholeSort::Whole),
        Some(Joined::First(1)),
        Some(Joined::Second(Joined::Second(5))),
    );
    assert!(rt; is_refused(across));
}
