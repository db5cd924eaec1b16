// The words of a line: sorts, ends and ranges as a vector file writes them.
ghost use Rattle.std.specs.Prelude.{◌≡◌};
ghost use Rattle.replay.specs.Calls.{whole_in, written_whole};

use answers::truth::Truth;
use interval_arithmetic::kind::Ranges;
use kinds::whole::WholeRange;
use std::fmt;
use std::str::{FromStr, SplitWhitespace};
use thiserror::Error;

// What was expected where a line cannot be read.
#[derive(Clone, Copy, Debug, Error)]
#[error("expected {0}")]
pub struct Unreadable(pub &'static str);

// The sorts of numbers.
#[derive(Clone, Copy, Debug, PartialEq, Eq)]
pub enum Sort {
    Whole,
    Stamp,
    Span,
    Step,
}

impl fmt::Display for Sort {
    fn fmt<W: fmt::Write>(&self, f: &mut fmt::Formatter<W>) -> fmt::Result {
        f.write_str(self.letter())
    }
}

impl Sort {
    // The letter that stands for the sort.
    fn letter(self) -> &'static str {
        match self {
            Sort::Whole => "w",
            Sort::Stamp => "t",
            Sort::Span => "d",
            Sort::Step => "s",
        }
    }
}

// A sort by its letter.
impl FromStr for Sort {
    type Err = Unreadable;

    fn from_str(word: &str) -> Result<Sort, Unreadable> {
        [Sort::Whole, Sort::Stamp, Sort::Span, Sort::Step]
            .into_iter()
            .find(|sort| sort.letter() == word)
            .ok_or(Unreadable("a sort: w, t, d, s or b"))
    }
}

// A range's end as it is written, `*` where it is open.
#[derive(Clone, Copy)]
struct End(Option<i64>);

impl fmt::Display for End {
    fn fmt<W: fmt::Write>(&self, f: &mut fmt::Formatter<W>) -> fmt::Result {
        match self.0 {
            Some(value) => write!(f, "{value}"),
            None => write!(f, "*"),
        }
    }
}

// An end by its word: a number of 64 bits, or `*`.
impl FromStr for End {
    type Err = Unreadable;

    fn from_str(word: &str) -> Result<End, Unreadable> {
        if word == "*" {
            return Ok(End(None));
        }
        word.parse()
            .map(|value| End(Some(value)))
            .map_err(|_| Unreadable("a range's end: a number of 64 bits or *"))
    }
}

// A range as it is written: what is known of a Boolean, or the lower and the upper end of numbers of a
// sort, none where an end is open.
#[derive(Clone, Copy, Debug, PartialEq, Eq)]
pub enum Written {
    Boolean(Truth),
    Number(Sort, Option<i64>, Option<i64>),
}

impl Written {
    // The range as one of whole numbers; none for another sort.
    pub fn whole(self) -> Option<WholeRange>
        ensures { result ≡ whole_in self }
    {
        match self {
            Written::Number(Sort::Whole, lower, upper) => WholeRange::try_new(lower, upper).ok(),
            _ => None,
        }
    }
}

// A range of whole numbers as it is written.
impl From<WholeRange> for Written {
    ghost from_gives = { λ range written. written ≡ written_whole range };

    fn from(range: WholeRange) -> Written {
        Written::Number(Sort::Whole, range.lower(), range.upper())
    }
}

impl fmt::Display for Written {
    fn fmt<W: fmt::Write>(&self, f: &mut fmt::Formatter<W>) -> fmt::Result {
        match *self {
            Written::Boolean(Truth::True) => write!(f, "b 1 1"),
            Written::Boolean(Truth::False) => write!(f, "b 0 0"),
            Written::Boolean(Truth::Unsure) => write!(f, "b 0 1"),
            Written::Number(sort, lower, upper) => {
                write!(f, "{sort} {} {}", End(lower), End(upper))
            }
        }
    }
}

// The words of a line that are still to be read.
#[derive(Drop)]
pub struct Words<'a> {
    rest: SplitWhitespace<'a>,
}

impl<'a> Words<'a> {
    // The words of this line.
    pub fn new(line: &'a str) -> Words<'a> {
        Words {
            rest: line.split_whitespace(),
        }
    }

    // The next word; none at the line's end.
    pub fn next_word(&mut self) -> Option<&'a str> {
        self.rest.next()
    }

    // What the next word stands for; the line's end is read as an empty word.
    pub fn parse<T: FromStr<Err = Unreadable>>(&mut self) -> Result<T, Unreadable> {
        self.next_word().unwrap_or_default().parse()
    }

    // Passes this word, which has to come next.
    pub fn pass(&mut self, word: &'static str) -> Result<(), Unreadable> {
        if self.next_word() == Some(word) {
            Ok(())
        } else {
            Err(Unreadable(word))
        }
    }

    // The two ends of a range of numbers.
    fn numbers(&mut self, sort: Sort) -> Result<Written, Unreadable> {
        let End(lower) = self.parse()?;
        let End(upper) = self.parse()?;
        if lower.zip(upper).is_some_and(|(a, b)| b < a) {
            return Err(Unreadable("a lower end at or below the upper"));
        }
        Ok(Written::Number(sort, lower, upper))
    }

    // The two ends of a range of Booleans.
    fn truth(&mut self) -> Result<Truth, Unreadable> {
        match (self.next_word(), self.next_word()) {
            (Some("1"), Some("1")) => Ok(Truth::True),
            (Some("0"), Some("0")) => Ok(Truth::False),
            (Some("0"), Some("1")) => Ok(Truth::Unsure),
            _ => Err(Unreadable("the ends of a Boolean range: 0 0, 0 1 or 1 1")),
        }
    }

    // A range: its sort, its lower end and its upper end.
    pub fn range(&mut self) -> Result<Written, Unreadable> {
        match self.next_word().unwrap_or_default() {
            "b" => Ok(Written::Boolean(self.truth()?)),
            sort => self.numbers(sort.parse()?),
        }
    }

    // The end of what is to be read: no more words, or the word `|`.
    pub fn finish(&mut self) -> Result<(), Unreadable> {
        match self.next_word() {
            None | Some("|") => Ok(()),
            Some(_) => Err(Unreadable("the end of the answer")),
        }
    }
}
