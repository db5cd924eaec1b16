// What is known of a Boolean.
ghost use Rattle.std.specs.Prelude.{◌≡◌, Bool, true};
ghost use Rattle.answers.specs.Refusals.{Refuses};
ghost use Rattle.answers.specs.Truths.{Told, between, Between, truth_meet, truth_contains};
ghost use Rattle.answers.specs.Sharing.{Shares, Contains};

use crate::refusal::{Ground, Refusal};

#[derive(Clone, Copy, Debug, PartialEq, Eq)]
pub enum Truth {
    True,
    False,
    // Either may be: the range that holds both Booleans.
    Unsure,
}

impl Truth {
    // The range from `lower` to `upper`; an open end is false below and true above.
    pub fn try_new(lower: Option<bool>, upper: Option<bool>) -> Result<Truth, Refusal>
        ensures value { result ≡ between lower upper }
        ensures holds { Between lower upper result }
        ensures refuses { Refuses 1 0 result }
    {
        match (lower.unwrap_or(false), upper.unwrap_or(true)) {
            (true, true) => Ok(Truth::True),
            (false, false) => Ok(Truth::False),
            (false, true) => Ok(Truth::Unsure),
            (true, false) => Err(Ground::CrossedEnds.at(0)),
        }
    }

    // What both hold; none where they share no Boolean.
    pub fn intersect(self, other: Truth) -> Option<Truth>
        ensures value { result ≡ truth_meet self other }
        ensures shares { Shares Told self other result }
    {
        match (self, other) {
            (Truth::Unsure, t) | (t, Truth::Unsure) => Some(t),
            (Truth::True, Truth::True) => Some(Truth::True),
            (Truth::False, Truth::False) => Some(Truth::False),
            _ => None,
        }
    }

    // TRUE where the intersection is `other` itself, FALSE where there is none, else UNSURE.
    pub fn contains(self, other: Truth) -> Truth
        ensures value { result ≡ truth_contains self other }
        ensures rule { Contains Told truth_meet ◌≡◌ self other result }
    {
        match self.intersect(other) {
            None => Truth::False,
            Some(shared) if shared == other => Truth::True,
            Some(_) => Truth::Unsure,
        }
    }
}
