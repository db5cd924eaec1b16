// A number kind: its values and their order, its ranges, its operations, and the questions that an analysis asks of it.
ghost use Rattle.std.specs.Prelude.{◌≡◌};
ghost use Rattle.interval_arithmetic.specs.Model.{Order, Operations};
ghost use Rattle.interval_arithmetic.specs.Laws.{OrderLaws, Laws};

// The operations on two numbers.
#[derive(Clone, Copy, Debug, PartialEq, Eq)]
pub enum Arithmetic {
    Plus,
    Minus,
}

// The ranges of a kind, on the type of its ranges: its sorts, the order of the values, and the ends.
// None of the questions asks anything of its caller, and equal ones get equal answers.
pub trait Ranges: Copy {
    type Value: Copy;

    type Sort: Copy;

    ghost order: { Order Self.Value Self Self.Sort };

    fn sort_of(v: Self::Value) -> Self::Sort
        ensures { result ≡ order.sort_of v };

    fn same_sort(s: Self::Sort, t: Self::Sort) -> bool
        ensures { result ≡ order.same s t };

    // Whether `a` is at or below `b`, of one sort.
    fn at_most(a: Self::Value, b: Self::Value) -> bool
        ensures { result ≡ order.leq a b };

    fn sort(self) -> Self::Sort
        ensures { result ≡ order.sort self };

    // The lower end, none where it is open; never above the upper one.
    fn lower(self) -> Option<Self::Value>
        ensures { result ≡ order.lower self };

    fn upper(self) -> Option<Self::Value>
        ensures { result ≡ order.upper self };

    // The range with these ends; none where one is not of the sort or they are crossed.
    fn make(s: Self::Sort, low: Option<Self::Value>, high: Option<Self::Value>) -> Option<Self>
        ensures { result ≡ order.make s low high };

    ghost orderly: { OrderLaws order };
}

// The operations of a kind on its ranges and values, and the questions that an analysis asks of it.
pub trait Kind: Ranges {
    type Literal: Copy;

    ghost operations: { Operations Self.Value Self Self.Sort Self.Literal };

    // The sort that results; none where the sorts do not fit the operation.
    fn fits(op: Arithmetic, s: Self::Sort, t: Self::Sort) -> Option<Self::Sort>
        ensures { result ≡ operations.fits op s t };

    // Whether values of this sort can be negated, compared, or stand in a column.
    fn negates(s: Self::Sort) -> bool
        ensures { result ≡ operations.negates s };

    fn compares(s: Self::Sort) -> bool
        ensures { result ≡ operations.compares s };

    fn columns(s: Self::Sort) -> bool
        ensures { result ≡ operations.columns s };

    // A range that holds every result of values in the two ranges.
    fn forward(op: Arithmetic, left: Self, right: Self) -> Self
        ensures { result ≡ operations.forward op left right };

    fn arithmetic_negate(self) -> Self
        ensures { result ≡ operations.arithmetic_negate self };

    // What is left of the two ranges where the result lies in `parent`; none where nothing is.
    fn backward(op: Arithmetic, parent: Self, left: Self, right: Self) -> Option<(Self, Self)>
        ensures { result ≡ operations.backward op parent left right };

    // The least greater value of the sort.
    fn next(v: Self::Value) -> Option<Self::Value>
        ensures { result ≡ operations.next v };

    // The greatest smaller value of the sort.
    fn previous(v: Self::Value) -> Option<Self::Value>
        ensures { result ≡ operations.previous v };

    // How many values the range holds; none where an end is open or they exceed 2^53.
    fn count(self) -> Option<u64>
        ensures { result ≡ operations.count self };

    // The value of a literal, or none where it is refused.
    fn admit(l: Self::Literal) -> Option<Self::Value>
        ensures { result ≡ operations.admit l };

    ghost laws: { Laws Self.Ranges.order operations };
}
