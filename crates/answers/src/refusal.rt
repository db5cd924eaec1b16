// Why a call refuses, and where.
ghost use Rattle.std.specs.Prelude.{◌≡◌, Some};
ghost use Rattle.answers.specs.Refusals.{number, refusal, message, refusal_text};

use std::error::Error;
use std::fmt;

// A ground for refusal.
#[derive(Clone, Copy, Debug, PartialEq, Eq)]
pub enum Ground {
    // A range's ends differ in sort, or the lower is above the upper.
    CrossedEnds,
    // The filter has no record or more than 256.
    RecordCount,
    // A child's place is not lower than its parent's, or a literal's place is outside the literals.
    RecordPlace,
    // A context has no boundary or more than 64.
    BoundaryCount,
    // A boundary's column is outside the schema or in an earlier boundary.
    BoundaryColumn,
    // A distinct count is above 2^53.
    DistinctCount,
    // A boundary has no range.
    NoRange,
    // No operator is made of the record.
    NoOperator,
    // A column is outside the schema, or its sort fits no column.
    ColumnSort,
    // The kind does not admit the literal.
    LiteralRefused,
    // The sorts do not fit the operator.
    SortsUnfit,
    // A list that the caller lends is too short.
    ListTooShort,
    // A number belongs to no node present.
    NoSuchNode,
    // A range or target has another sort than its node.
    OtherSort,
    // A visited disjunction is TRUE.
    TrueDisjunction,
}

// A ground, and the one position that it speaks of.
#[derive(Clone, Copy, Debug, PartialEq, Eq)]
pub struct Refusal {
    pub ground: Ground,
    pub position: usize,
}

impl Ground {
    // The refusal on this ground, at a position.
    pub fn at(self, position: usize) -> Refusal
        ensures { result ≡ refusal self position }
    {
        Refusal {
            ground: self,
            position,
        }
    }
}

// The number by which the ground is known, 1 to 15.
impl From<Ground> for u8 {
    ghost from_gives = { λ g n. n ≡ number g };

    fn from(ground: Ground) -> u8 {
        ground as u8 + 1
    }
}

// What is wrong, for a person to act on.
impl fmt::Display for Ground {
    ghost output = { λ g. Some (message g) };

    fn fmt<W: fmt::Write>(&self, f: &mut fmt::Formatter<W>) -> fmt::Result {
        f.write_str(match self {
            Ground::CrossedEnds =>
                "the range's ends differ in sort or the lower is above the upper",
            Ground::RecordCount => "the filter needs 1 to 256 records",
            Ground::RecordPlace => "a child must stand before its parent and a literal in the list",
            Ground::BoundaryCount => "the context needs 1 to 64 boundaries",
            Ground::BoundaryColumn =>
                "the boundary's column is not in the schema or has one already",
            Ground::DistinctCount => "the distinct count is above 2^53",
            Ground::NoRange => "the boundary has no range",
            Ground::NoOperator => "no operator is made of this record",
            Ground::ColumnSort => "the column is not in the schema or its sort fits no column",
            Ground::LiteralRefused => "the kind does not admit this literal",
            Ground::SortsUnfit => "the operands' sorts do not fit the operator",
            Ground::ListTooShort => "a list that was lent is too short",
            Ground::NoSuchNode => "no node present has this number",
            Ground::OtherSort => "the range has another sort than its node",
            Ground::TrueDisjunction => "a disjunction is TRUE: neither side can be narrowed alone",
        })
    }
}

impl Refusal {
    // The number of the ground, 1 to 15.
    pub fn number(self) -> u8
        ensures { result ≡ number self.ground }
    {
        u8::from(self.ground)
    }
}

impl fmt::Display for Refusal {
    ghost output = { λ r. Some (refusal_text r) };

    fn fmt<W: fmt::Write>(&self, f: &mut fmt::Formatter<W>) -> fmt::Result {
        let Refusal { ground, position } = *self;
        write!(f, "refusal {} at {position}: {ground}", self.number())
    }
}

impl Error for Refusal {}
