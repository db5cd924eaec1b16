// Whole numbers of 64 bits, as a kind. A result outside 64 bits is no value; an end outside them is open.
ghost use Rattle.std.specs.Prelude.{◌≡◌};
ghost use Rattle.kinds.specs.Whole.{EndBy, lower_of, upper_of, sum, difference, negated_range, cut_left, cut_right, backward_of, make_of, whole_order, whole};
ghost use Rattle.answers.specs.Refusals.{Refuses};
ghost use Rattle.interval_arithmetic.specs.Ends.{try_new_of, Spans};
ghost use Rattle.kinds.specs.WholeEnds.{order_laws};
ghost use Rattle.kinds.specs.WholeLaws.{whole_laws};
ghost use Rattle.kinds.specs.declared.whole.WholeSort.TheVariants.{Whole};

use answers::refusal::Refusal;
use interval_arithmetic::ends::{intersect, try_new};
use interval_arithmetic::kind::{Arithmetic, Kind, Ranges};
use std::ops::{Add, Neg, Sub};

#[derive(Clone, Copy, Debug, PartialEq, Eq)]
pub enum WholeSort {
    Whole,
}

// The numbers between two ends, each a number or open; crossed ends are read as swapped. The default holds all.
#[derive(Clone, Copy, Debug, Default)]
pub struct WholeRange {
    pub low: Option<i64>,
    pub high: Option<i64>,
}

impl WholeRange {
    // The numbers from `low` to `high`; refused where the lower end is above the upper.
    pub fn try_new(low: Option<i64>, high: Option<i64>) -> Result<WholeRange, Refusal>
        ensures value { result ≡ try_new_of whole_order Whole low high }
        ensures spans { Spans whole_order Whole low high result }
        ensures refuses { Refuses 1 0 result }
    {
        try_new::<WholeRange>(WholeSort::Whole, low, high)
    }

    // The lower and the upper end, as they are read.
    fn ends(self) -> (Option<i64>, Option<i64>)
        ensures low { result.0 ≡ lower_of self }
        ensures high { result.1 ≡ upper_of self }
    {
        match (self.low, self.high) {
            (Some(low), Some(high)) if high < low => (Some(high), Some(low)),
            ends => ends,
        }
    }
}

// The end that the rule makes of two; open where one is open or there is no result.
fn end_by<F: FnOnce(i64, i64) -> Option<i64>>(
    a: Option<i64>,
    b: Option<i64>,
    rule: F,
) -> Option<i64>
    requires { F.IsAlwaysCallable rule }
    ensures { EndBy (F.post rule) a b result }
{
    rule(a?, b?)
}

// The range that holds every sum of numbers in the two.
impl Add for WholeRange {
    type Output = WholeRange;

    ghost add_gives = { λ l r s. s ≡ sum l r };

    fn add(self, other: WholeRange) -> WholeRange {
        let (low, high) = self.ends();
        let (other_low, other_high) = other.ends();
        WholeRange {
            low: end_by(low, other_low, i64::checked_add),
            high: end_by(high, other_high, i64::checked_add),
        }
    }
}

// The range that holds every difference of numbers in the two.
impl Sub for WholeRange {
    type Output = WholeRange;

    ghost sub_gives = { λ l r d. d ≡ difference l r };

    fn sub(self, other: WholeRange) -> WholeRange {
        let (low, high) = self.ends();
        let (other_low, other_high) = other.ends();
        WholeRange {
            low: end_by(low, other_high, i64::checked_sub),
            high: end_by(high, other_low, i64::checked_sub),
        }
    }
}

// The range that holds the negative of every number in this one.
impl Neg for WholeRange {
    type Output = WholeRange;

    ghost neg_gives = { λ r n. n ≡ negated_range r };

    fn neg(self) -> WholeRange {
        let (low, high) = self.ends();
        WholeRange {
            low: high.and_then(i64::checked_neg),
            high: low.and_then(i64::checked_neg),
        }
    }
}

// An operation on whole numbers: where its result lies, and where its two operands do.
#[derive(Clone, Copy, Debug)]
pub struct Propagation {
    pub op: Arithmetic,
    pub parent: WholeRange,
    pub left: WholeRange,
    pub right: WholeRange,
}

impl Propagation {
    // What is left of the left operand by the result and the right one.
    #[inline(always)]
    pub fn cut_left(self) -> Option<WholeRange>
        ensures { result ≡ cut_left self.op self.parent self.left self.right }
    {
        let by_right = match self.op {
            Arithmetic::Plus => self.parent - self.right,
            Arithmetic::Minus => self.parent + self.right,
        };
        intersect(by_right, self.left)
    }

    // What is left of the right operand by the result and the left one.
    #[inline(always)]
    pub fn cut_right(self) -> Option<WholeRange>
        ensures { result ≡ cut_right self.op self.parent self.left self.right }
    {
        let by_left = match self.op {
            Arithmetic::Plus => self.parent - self.left,
            Arithmetic::Minus => self.left - self.parent,
        };
        intersect(by_left, self.right)
    }

    // What is left of both: of the right one by what is left of the left one.
    pub fn cut(self) -> Option<(WholeRange, WholeRange)>
        ensures { result ≡ backward_of self.op self.parent self.left self.right }
    {
        let left = self.cut_left()?;
        let right = Propagation { left, ..self }.cut_right()?;
        Some((left, right))
    }
}

impl Ranges for WholeRange {
    type Value = i64;

    type Sort = WholeSort;

    ghost order = { whole_order };

    ghost orderly = { order_laws };

    fn sort_of(_v: i64) -> WholeSort {
        WholeSort::Whole
    }

    fn same_sort(s: WholeSort, t: WholeSort) -> bool {
        s == t
    }

    fn at_most(a: i64, b: i64) -> bool {
        a <= b
    }

    fn sort(self) -> WholeSort {
        WholeSort::Whole
    }

    fn lower(self) -> Option<i64> {
        self.ends().0
    }

    fn upper(self) -> Option<i64> {
        self.ends().1
    }

    fn make(_s: WholeSort, low: Option<i64>, high: Option<i64>) -> Option<WholeRange>
        ensures { result ≡ make_of low high }
    {
        match (low, high) {
            (Some(a), Some(b)) if b < a => None,
            _ => Some(WholeRange { low, high }),
        }
    }
}

impl Kind for WholeRange {
    type Literal = i64;

    ghost operations = { whole };

    ghost laws = { whole_laws };

    fn fits(_op: Arithmetic, _s: WholeSort, _t: WholeSort) -> Option<WholeSort> {
        Some(WholeSort::Whole)
    }

    fn negates(_s: WholeSort) -> bool {
        true
    }

    fn compares(_s: WholeSort) -> bool {
        true
    }

    fn columns(_s: WholeSort) -> bool {
        true
    }

    fn forward(op: Arithmetic, left: WholeRange, right: WholeRange) -> WholeRange {
        match op {
            Arithmetic::Plus => left + right,
            Arithmetic::Minus => left - right,
        }
    }

    fn arithmetic_negate(self) -> WholeRange {
        -self
    }

    fn backward(
        op: Arithmetic,
        parent: WholeRange,
        left: WholeRange,
        right: WholeRange,
    ) -> Option<(WholeRange, WholeRange)> {
        Propagation {
            op,
            parent,
            left,
            right,
        }
        .cut()
    }

    fn next(v: i64) -> Option<i64> {
        v.checked_add(1)
    }

    fn previous(v: i64) -> Option<i64> {
        v.checked_sub(1)
    }

    fn count(self) -> Option<u64> {
        // The same for crossed ends.
        let size = self.high?.abs_diff(self.low?);
        if size < 1 << 53 { Some(size + 1) } else { None }
    }

    fn admit(l: i64) -> Option<i64> {
        Some(l)
    }
}
