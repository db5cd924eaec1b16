// A filter: one comparison of a column with a number, as `cpu > 90`.
ghost use Rattle.std.specs.Prelude.{◌≡◌, ℕ, List, [], ◌∷◌, MatchOption, IfErr};
ghost use Rattle.segments.specs.Texts.{Said, Symbol, Reads, Words, FilterSays};
ghost use Rattle.segments.specs.declared.fault.Expected.TheVariants.{Operator, Number};

use crate::fault::{Expected, Fault};
use interval_arithmetic::compare::Comparison;

// A column, how its numbers are compared, and with which number.
#[derive(Clone, Copy, Debug)]
pub struct Filter<'a> {
    pub column: &'a str,
    pub comparison: Comparison,
    pub value: i64,
}

// The comparison of an operator.
fn parse_operator(text: &str) -> Result<Comparison, Fault<'_>>
    ensures said { Said (Symbol text.now) result }
    ensures expected { IfErr result (λ fault. fault.expected ≡ Operator) }
{
    match text {
        ">" => Ok(Comparison::Gt),
        ">=" => Ok(Comparison::GtEq),
        "<" => Ok(Comparison::Lt),
        "<=" => Ok(Comparison::LtEq),
        "=" => Ok(Comparison::Eq),
        _ => Err(Expected::Operator.in_text(text)),
    }
}

// A whole number of 64 bits.
fn parse_number(text: &str) -> Result<i64, Fault<'_>>
    ensures said { Said (Reads text.now) result }
    ensures expected { IfErr result (λ fault. fault.expected ≡ Number) }
{
    text.parse().map_err(|_| Expected::Number.in_text(text))
}

// The words of a text of three.
fn three_words(text: &str) -> Option<(&str, &str, &str)>
    ensures { MatchOption result ((a b c : List ℕ) → Words text.now (a ∷ b ∷ c ∷ []) → ⊥) (λ x. Words text.now (x.0.now ∷ x.1.now ∷ x.2.now ∷ [])) }
{
    let mut words = text.split_whitespace();
    let three = (words.next()?, words.next()?, words.next()?);
    match words.next() {
        None => Some(three),
        Some(_) => None,
    }
}

// The filter COLUMN OPERATOR NUMBER.
impl<'a> TryFrom<&'a str> for Filter<'a> {
    type Error = Fault<'a>;

    ghost try_from_gives = { λ text r. Said (FilterSays text.now) r };

    fn try_from(text: &'a str) -> Result<Filter<'a>, Fault<'a>> {
        let (column, operator, number) = three_words(text).ok_or(Expected::Filter.in_text(text))?;
        if column.contains('=') {
            return Err(Expected::ColumnName.in_text(column));
        }
        Ok(Filter {
            column,
            comparison: parse_operator(operator)?,
            value: parse_number(number)?,
        })
    }
}

// The filter COLUMN OPERATOR NUMBER.
pub fn parse_filter(text: &str) -> Result<Filter<'_>, Fault<'_>>
    ensures { Said (FilterSays text.now) result }
{
    Filter::try_from(text)
}
