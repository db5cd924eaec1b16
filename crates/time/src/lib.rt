// Stamps, spans and steps of time, in nanoseconds of 64 bits, as a number kind.
//
//     stamp - stamp  =  span         span + span  =  span
//     stamp + span   =  stamp        -span        =  span
//     stamp + step   =  stamp        a step is taken as the span of its nanoseconds
//
// A range is a sort beside a range of nanoseconds, whose ends are made as those of whole numbers.
// The definitions stand in specs/Time.antt.
#![tactic(auto)]

ghost use Rattle.std.specs.Prelude.{◌≡◌, is_some};
ghost use Rattle.answers.specs.Refusals.{Refuses};
ghost use Rattle.interval_arithmetic.specs.Ends.{try_new_of, Spans};
ghost use Rattle.time.specs.Time.{of_sort, make_of, bounded, at_left, at_right, arm, time_order, time};
ghost use Rattle.time.specs.TimeEnds.{order_laws};
ghost use Rattle.time.specs.TimeLaws.{time_laws};

use answers::refusal::Refusal;
use interval_arithmetic::ends::try_new;
use interval_arithmetic::kind::{Arithmetic, Kind, Ranges};
use kinds::whole::{Propagation, WholeRange, WholeSort};

#[derive(Clone, Copy, Debug, PartialEq, Eq)]
pub enum TimeSort {
    // A point in time.
    Stamp,
    // A length of time.
    Span,
    // A length of time that is written in months, days and nanoseconds.
    Step,
}

// A value: so many nanoseconds, of one of the sorts.
#[derive(Clone, Copy, Debug, PartialEq, Eq)]
pub struct Time {
    pub sort: TimeSort,
    pub nanoseconds: i64,
}

// A value as it is written. A month or a day has no fixed length, so a step with either is not admitted.
#[derive(Clone, Copy, Debug, PartialEq, Eq)]
pub enum TimeLiteral {
    Stamp(i64),
    Span(i64),
    Step {
        months: i32,
        days: i32,
        nanoseconds: i64,
    },
}

// The values of a sort whose nanoseconds lie in a range.
#[derive(Clone, Copy, Debug)]
pub struct TimeRange {
    pub sort: TimeSort,
    pub nanoseconds: WholeRange,
}

impl TimeSort {
    // The value of this sort with these nanoseconds.
    fn of(self, nanoseconds: i64) -> Time
        ensures { result ≡ of_sort self nanoseconds }
    {
        Time {
            sort: self,
            nanoseconds,
        }
    }
}

impl TimeRange {
    // The values of the sort from `low` to `high`; refused where an end is of another sort or they are crossed.
    pub fn try_new(
        sort: TimeSort,
        low: Option<Time>,
        high: Option<Time>,
    ) -> Result<TimeRange, Refusal>
        ensures value { result ≡ try_new_of time_order sort low high }
        ensures spans { Spans time_order sort low high result }
        ensures refuses { Refuses 1 0 result }
    {
        try_new::<TimeRange>(sort, low, high)
    }
}

impl Ranges for TimeRange {
    type Value = Time;

    type Sort = TimeSort;

    ghost order = { time_order };

    ghost orderly = { order_laws };

    fn sort_of(v: Time) -> TimeSort {
        v.sort
    }

    fn same_sort(s: TimeSort, t: TimeSort) -> bool {
        s == t
    }

    fn at_most(a: Time, b: Time) -> bool {
        a.nanoseconds <= b.nanoseconds
    }

    fn sort(self) -> TimeSort {
        self.sort
    }

    fn lower(self) -> Option<Time> {
        self.nanoseconds.lower().map(|n| self.sort.of(n))
    }

    fn upper(self) -> Option<Time> {
        self.nanoseconds.upper().map(|n| self.sort.of(n))
    }

    fn make(s: TimeSort, low: Option<Time>, high: Option<Time>) -> Option<TimeRange>
        ensures { result ≡ make_of s low high }
    {
        if low.is_some_and(|low| low.sort != s) || high.is_some_and(|high| high.sort != s) {
            return None;
        }
        let low = low.map(|low| low.nanoseconds);
        let high = high.map(|high| high.nanoseconds);
        let nanoseconds = WholeRange::make(WholeSort::Whole, low, high)?;
        Some(TimeRange {
            sort: s,
            nanoseconds,
        })
    }
}

// Whether both ends are values. A step with an open end is not converted to a span.
fn is_bounded(range: WholeRange) -> bool
    ensures { result ≡ bounded range }
{
    range.lower().is_some() && range.upper().is_some()
}

// A step at the left: it is cut as a span; with an open end it stays, and only the stamp is cut.
fn propagate_time_interval_at_left(of: Propagation) -> Option<(WholeRange, WholeRange)>
    ensures { result ≡ at_left of.op of.parent of.left of.right }
{
    if is_bounded(of.left) {
        of.cut()
    } else {
        Some(of.left).zip(of.cut_right())
    }
}

// A step at the right: it is cut as a span, by the stamp as it was; with an open end it stays, and only the stamp is cut.
fn propagate_time_interval_at_right(of: Propagation) -> Option<(WholeRange, WholeRange)>
    ensures { result ≡ at_right of.op of.parent of.left of.right }
{
    if is_bounded(of.right) {
        of.cut_left().zip(of.cut_right())
    } else {
        of.cut_left().zip(Some(of.right))
    }
}

// What is left of the operands' nanoseconds, by the arm for their sorts.
fn propagate_arithmetic(
    left: TimeSort,
    right: TimeSort,
    of: Propagation,
) -> Option<(WholeRange, WholeRange)>
    ensures { result ≡ arm left right of.op of.parent of.left of.right }
{
    match (left, right) {
        (TimeSort::Stamp, TimeSort::Step) => propagate_time_interval_at_right(of),
        (TimeSort::Step, TimeSort::Stamp) => propagate_time_interval_at_left(of),
        _ => of.cut(),
    }
}

impl Kind for TimeRange {
    type Literal = TimeLiteral;

    ghost operations = { time };

    ghost laws = { time_laws };

    fn fits(op: Arithmetic, s: TimeSort, t: TimeSort) -> Option<TimeSort> {
        match (op, s, t) {
            (_, TimeSort::Stamp, TimeSort::Span | TimeSort::Step) => Some(TimeSort::Stamp),
            (Arithmetic::Plus, TimeSort::Span | TimeSort::Step, TimeSort::Stamp) => {
                Some(TimeSort::Stamp)
            }
            (Arithmetic::Minus, TimeSort::Stamp, TimeSort::Stamp) => Some(TimeSort::Span),
            (_, TimeSort::Span, TimeSort::Span) => Some(TimeSort::Span),
            _ => None,
        }
    }

    fn negates(s: TimeSort) -> bool {
        s == TimeSort::Span
    }

    fn compares(s: TimeSort) -> bool {
        s != TimeSort::Step
    }

    fn columns(s: TimeSort) -> bool {
        TimeRange::compares(s)
    }

    fn forward(op: Arithmetic, left: TimeRange, right: TimeRange) -> TimeRange {
        TimeRange {
            sort: TimeRange::fits(op, left.sort, right.sort).unwrap_or(left.sort),
            nanoseconds: WholeRange::forward(op, left.nanoseconds, right.nanoseconds),
        }
    }

    fn arithmetic_negate(self) -> TimeRange {
        TimeRange {
            nanoseconds: -self.nanoseconds,
            ..self
        }
    }

    fn backward(
        op: Arithmetic,
        parent: TimeRange,
        left: TimeRange,
        right: TimeRange,
    ) -> Option<(TimeRange, TimeRange)> {
        if TimeRange::fits(op, left.sort, right.sort) != Some(parent.sort) {
            return None;
        }
        let nanoseconds = Propagation {
            op,
            parent: parent.nanoseconds,
            left: left.nanoseconds,
            right: right.nanoseconds,
        };
        let (l, r) = propagate_arithmetic(left.sort, right.sort, nanoseconds)?;
        Some((
            TimeRange {
                nanoseconds: l,
                ..left
            },
            TimeRange {
                nanoseconds: r,
                ..right
            },
        ))
    }

    fn next(v: Time) -> Option<Time> {
        WholeRange::next(v.nanoseconds).map(|n| v.sort.of(n))
    }

    fn previous(v: Time) -> Option<Time> {
        WholeRange::previous(v.nanoseconds).map(|n| v.sort.of(n))
    }

    fn count(self) -> Option<u64> {
        self.nanoseconds.count()
    }

    fn admit(l: TimeLiteral) -> Option<Time> {
        match l {
            TimeLiteral::Stamp(n) => Some(TimeSort::Stamp.of(n)),
            TimeLiteral::Span(n) => Some(TimeSort::Span.of(n)),
            TimeLiteral::Step {
                months,
                days,
                nanoseconds,
            } => (months == 0 && days == 0).then(|| TimeSort::Step.of(nanoseconds)),
        }
    }
}
