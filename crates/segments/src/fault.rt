// What is wrong with a text: what was expected, and the part that it was expected in.
ghost use Rattle.std.specs.Prelude.{◌≡◌, Some};
ghost use Rattle.segments.specs.Faults.{sentence_of, fault_text};

use std::error::Error;
use std::fmt;

// What a segment's line or a filter should have.
#[derive(Clone, Copy, Debug, PartialEq, Eq)]
pub enum Expected {
    SegmentName,
    Column,
    ColumnName,
    Bounds,
    End,
    Uncrossed,
    Once,
    Filter,
    Operator,
    Number,
}

impl Expected {
    // The fault of a text that should have had this.
    pub fn in_text(self, text: &str) -> Fault<'_>
        ensures expected { result.expected ≡ self }
        ensures text { result.text.now ≡ text.now }
    {
        Fault {
            expected: self,
            text,
        }
    }
}

impl fmt::Display for Expected {
    ghost output = { λ e. Some (sentence_of e) };

    fn fmt<W: fmt::Write>(&self, f: &mut fmt::Formatter<W>) -> fmt::Result {
        f.write_str(match self {
            Expected::SegmentName => "a segment's name, with no `=`, before its columns",
            Expected::Column => "a column NAME=LOW..HIGH",
            Expected::ColumnName => "a column's name, with no `=`",
            Expected::Bounds => "bounds LOW..HIGH, an end being a whole number or *",
            Expected::End => "ends that are whole numbers of 64 bits or *",
            Expected::Uncrossed => "a lower end at or below the upper one",
            Expected::Once => "the filter's column once",
            Expected::Filter => "a filter COLUMN OPERATOR NUMBER, with blanks between",
            Expected::Operator => "an operator, one of > >= < <= =",
            Expected::Number => "a whole number of 64 bits",
        })
    }
}

// What was expected, and in which part of the text.
#[derive(Clone, Copy, Debug, PartialEq, Eq)]
pub struct Fault<'a> {
    pub expected: Expected,
    pub text: &'a str,
}

impl<'a> fmt::Display for Fault<'a> {
    ghost output = { λ x. Some (fault_text x.expected x.text.now) };

    fn fmt<W: fmt::Write>(&self, f: &mut fmt::Formatter<W>) -> fmt::Result {
        let Fault { expected, text } = self;
        write!(f, "expected {expected}, in `{text}`")
    }
}

impl Error for Fault<'_> {}
