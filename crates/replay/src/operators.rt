// Operator cases: what a line asks of an operator, and what the libraries answer.
ghost use Rattle.std.specs.Prelude.{◌≡◌};
ghost use Rattle.replay.specs.Calls.{holding_of, satisfied, one_child, two_children, forward_range, backward_rest, answer_of};

use crate::words::{Unreadable, Words, Written};
use answers::truth::Truth;
use interval_arithmetic::compare::{Comparison, compare};
use interval_arithmetic::ends::intersect;
use interval_arithmetic::greater::satisfy_greater;
use interval_arithmetic::kind::{Arithmetic, Kind};
use kinds::whole::WholeRange;
use std::fmt;
use std::str::FromStr;

// The operators of a case.
#[derive(Clone, Copy)]
enum Operator {
    Not,
    Neg,
    Arithmetic(Arithmetic),
    Comparison(Comparison),
    And,
    Or,
}

// An operator by its name.
impl FromStr for Operator {
    type Err = Unreadable;

    fn from_str(name: &str) -> Result<Operator, Unreadable> {
        match name {
            "not" => Ok(Operator::Not),
            "neg" => Ok(Operator::Neg),
            "plus" => Ok(Operator::Arithmetic(Arithmetic::Plus)),
            "minus" => Ok(Operator::Arithmetic(Arithmetic::Minus)),
            "gt" => Ok(Operator::Comparison(Comparison::Gt)),
            "ge" => Ok(Operator::Comparison(Comparison::GtEq)),
            "lt" => Ok(Operator::Comparison(Comparison::Lt)),
            "le" => Ok(Operator::Comparison(Comparison::LtEq)),
            "eq" => Ok(Operator::Comparison(Comparison::Eq)),
            "and" => Ok(Operator::And),
            "or" => Ok(Operator::Or),
            _ => Err(Unreadable("an operator's name")),
        }
    }
}

impl Operator {
    // Reads as many ranges as the operator has children.
    fn read_children(self, words: &mut Words<'_>) -> Result<Children, Unreadable> {
        let first = words.range()?;
        match self {
            Operator::Not | Operator::Neg => Ok(Children::One(first)),
            _ => Ok(Children::Two(first, words.range()?)),
        }
    }
}

// The ranges of an operator's children, or what is left of them.
#[derive(Clone, Copy, Debug, PartialEq, Eq)]
pub enum Children {
    One(Written),
    Two(Written, Written),
}

// The one child with this range.
impl From<WholeRange> for Children {
    ghost from_gives = { λ range children. children ≡ one_child range };

    fn from(range: WholeRange) -> Children {
        Children::One(range.into())
    }
}

// The two children with these ranges.
impl From<(WholeRange, WholeRange)> for Children {
    ghost from_gives = { λ pair children. children ≡ two_children pair };

    fn from((left, right): (WholeRange, WholeRange)) -> Children {
        Children::Two(left.into(), right.into())
    }
}

impl fmt::Display for Children {
    fn fmt<W: fmt::Write>(&self, f: &mut fmt::Formatter<W>) -> fmt::Result {
        match *self {
            Children::One(range) => write!(f, "{range}"),
            Children::Two(left, right) => write!(f, "{left} {right}"),
        }
    }
}

// What an operator answers; a forward answer is one range.
#[derive(Clone, Copy, Debug, PartialEq, Eq)]
pub enum Answer {
    Ranges(Children),
    Shown,
    Unresolved,
}

impl fmt::Display for Answer {
    fn fmt<W: fmt::Write>(&self, f: &mut fmt::Formatter<W>) -> fmt::Result {
        match *self {
            Answer::Ranges(children) => write!(f, "{children}"),
            Answer::Shown => write!(f, "shown"),
            Answer::Unresolved => write!(f, "unresolved"),
        }
    }
}

// What an operator is asked: of its children alone, or of its own range too.
#[derive(Clone, Copy)]
pub struct Question {
    operator: Operator,
    own: Option<Written>,
    children: Children,
}

impl Question {
    // Reads what follows the word `forward`: an operator and its children's ranges.
    pub fn read_forward(words: &mut Words<'_>) -> Result<Question, Unreadable> {
        let operator: Operator = words.parse()?;
        Ok(Question {
            operator,
            own: None,
            children: operator.read_children(words)?,
        })
    }

    // Reads what follows the word `backward`: an operator, its own range and its children's.
    pub fn read_backward(words: &mut Words<'_>) -> Result<Question, Unreadable> {
        let operator: Operator = words.parse()?;
        Ok(Question {
            operator,
            own: Some(words.range()?),
            children: operator.read_children(words)?,
        })
    }

    // The answer that the line expects.
    pub fn expected(self, words: &mut Words<'_>) -> Result<Answer, Unreadable> {
        if self.own.is_none() {
            return Ok(Answer::Ranges(Children::One(words.range()?)));
        }
        match words.next_word() {
            Some("new") => Ok(Answer::Ranges(self.operator.read_children(words)?)),
            Some("unchanged") => Ok(Answer::Ranges(self.children)),
            Some("shown") => Ok(Answer::Shown),
            Some("unresolved") => Ok(Answer::Unresolved),
            _ => Err(Unreadable("an answer: new, unchanged, shown or unresolved")),
        }
    }

    // The answer of the libraries; none where they have no such call.
    pub fn answer(self) -> Option<Answer>
        ensures { result ≡ answer_of self }
    {
        match self.own {
            None => Some(Answer::Ranges(Children::One(self.forward()?))),
            Some(own) => Some(self.backward(own)?.map_or(Answer::Shown, Answer::Ranges)),
        }
    }

    // The operator's range over its children's; none where the libraries have no such call.
    fn forward(self) -> Option<Written>
        ensures { result ≡ forward_range self.operator self.children }
    {
        match (self.operator, self.children) {
            (Operator::Neg, Children::One(child)) => {
                Some(child.whole()?.arithmetic_negate().into())
            }
            (Operator::Arithmetic(op), Children::Two(left, right)) => {
                Some(WholeRange::forward(op, left.whole()?, right.whole()?).into())
            }
            (Operator::Comparison(comparison), Children::Two(left, right)) => {
                Some(Written::Boolean(compare(comparison, left.whole()?, right.whole()?)))
            }
            _ => None,
        }
    }

    // What is left of the children where the operator has this range, if anything is; none where the
    // libraries have no such call.
    fn backward(self, own: Written) -> Option<Option<Children>>
        ensures { result ≡ backward_rest self.operator own self.children }
    {
        match (self.operator, self.children) {
            (Operator::Neg, Children::One(child)) => {
                let rest = intersect(own.whole()?.arithmetic_negate(), child.whole()?);
                Some(rest.map(Children::from))
            }
            (Operator::Arithmetic(op), Children::Two(left, right)) => {
                let rest = WholeRange::backward(op, own.whole()?, left.whole()?, right.whole()?);
                Some(rest.map(Children::from))
            }
            (Operator::Comparison(comparison), Children::Two(left, right)) => {
                let rest = satisfy(holding(own, comparison)?, left.whole()?, right.whole()?);
                Some(rest.map(Children::from))
            }
            _ => None,
        }
    }
}

// The comparison that holds where this one has the own range; none where no single one does.
fn holding(own: Written, comparison: Comparison) -> Option<Comparison>
    ensures { result ≡ holding_of own comparison }
{
    match (own, comparison) {
        (Written::Boolean(Truth::True), _) => Some(comparison),
        (Written::Boolean(Truth::False), Comparison::Gt) => Some(Comparison::LtEq),
        (Written::Boolean(Truth::False), Comparison::GtEq) => Some(Comparison::Lt),
        (Written::Boolean(Truth::False), Comparison::Lt) => Some(Comparison::GtEq),
        (Written::Boolean(Truth::False), Comparison::LtEq) => Some(Comparison::Gt),
        _ => None,
    }
}

// What is left of two ranges where the comparison holds.
fn satisfy(
    comparison: Comparison,
    left: WholeRange,
    right: WholeRange,
) -> Option<(WholeRange, WholeRange)>
    ensures { result ≡ satisfied comparison left right }
{
    match comparison {
        Comparison::Gt => satisfy_greater(left, right, true),
        Comparison::GtEq => satisfy_greater(left, right, false),
        Comparison::Lt => satisfy_greater(right, left, true).map(|(right, left)| (left, right)),
        Comparison::LtEq => satisfy_greater(right, left, false).map(|(right, left)| (left, right)),
        Comparison::Eq => intersect(left, right).map(|shared| (shared, shared)),
    }
}
