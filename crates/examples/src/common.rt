// Ranges for the examples, and what ranges of any kind are held to.
use answers::refusal::Refusal;
use answers::truth::Truth;
use interval_arithmetic::ends::contains;
use interval_arithmetic::kind::Ranges;
use kinds::whole::WholeRange;
use time::{TimeRange, TimeSort};

// The whole numbers from `low` to `high`.
pub fn whole(low: i64, high: i64) -> WholeRange {
    WholeRange {
        low: Some(low),
        high: Some(high),
    }
}

// The stamps from `low` to `high`.
pub fn stamps(low: i64, high: i64) -> TimeRange {
    TimeRange {
        sort: TimeSort::Stamp,
        nanoseconds: whole(low, high),
    }
}

// Whether the two ranges are equal: of one sort, with the same ends, so that each contains the other.
pub fn is_same<K: Ranges>(a: K, b: K) -> bool
where
    K::Value: PartialEq,
{
    K::same_sort(a.sort(), b.sort())
        && a.lower() == b.lower()
        && a.upper() == b.upper()
        && contains(a, b) == Truth::True
        && contains(b, a) == Truth::True
}

// Whether these two ranges are what is left.
pub fn leaves<K: Ranges>(pair: Option<(K, K)>, left: K, right: K) -> bool
where
    K::Value: PartialEq,
{
    pair.is_some_and(|(l, r)| is_same(l, left) && is_same(r, right))
}

// Whether the ends were refused: refusal 1, at position 0.
pub fn is_refused<K: Ranges>(made: Result<K, Refusal>) -> bool {
    made.is_err_and(|refusal| refusal.number() == 1 && refusal.position == 0)
}
