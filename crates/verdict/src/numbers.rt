// A verdict as numbers.
ghost use Rattle.std.specs.Prelude.{◌≡◌, Err};
ghost use Rattle.verdict.specs.declared.entry.Objection.TheVariants.{Refused};
ghost use Rattle.verdict.specs.Coded.{numbers_of};
ghost use Rattle.verdict.specs.Outcomes.{outcome_number, IsOutcome};

use super::entry::{Objection, Verdict};
use questions::question::Refusal;

// What a verdict is, with the rules' numbers; those of several entries are as bad as the largest.
#[derive(Clone, Copy, PartialEq, Eq, PartialOrd, Ord)]
pub enum Outcome {
    Accepted = 0,
    Rejected = 1,
    Refused = 2,
}

impl From<Outcome> for u8 {
    ghost from_gives = { λ outcome number. number ≡ outcome_number outcome };

    fn from(outcome: Outcome) -> u8 {
        // The discriminant is the rules' number.
        outcome as u8
    }
}

// A number that no outcome has.
#[derive(Clone, Copy)]
pub struct UnknownOutcome(pub u8);

impl TryFrom<u8> for Outcome {
    type Error = UnknownOutcome;

    ghost try_from_gives = { IsOutcome };

    fn try_from(number: u8) -> Result<Outcome, UnknownOutcome> {
        match number {
            0 => Ok(Outcome::Accepted),
            1 => Ok(Outcome::Rejected),
            2 => Ok(Outcome::Refused),
            _ => Err(UnknownOutcome(number)),
        }
    }
}

// What the verdict is, and two numbers beside (Verdict in the specs of crates/claim).
#[derive(Clone, Copy)]
pub struct Numbers {
    pub outcome: Outcome,
    pub first: usize,
    pub second: usize,
}

// Those of a "no" to a question: its number, and the place that it names.
impl From<Refusal> for Numbers {
    ghost from_gives = { λ refusal numbers. numbers ≡ numbers_of (Err (Refused refusal)) };

    #[tactic(auto, unfolding(crate::specs::Coded::numbers_of))]
    fn from(refusal: Refusal) -> Numbers {
        Numbers {
            outcome: Outcome::Refused,
            first: usize::from(u8::from(refusal.question)),
            second: refusal.place,
        }
    }
}

// Those of every verdict.
impl From<Verdict> for Numbers {
    ghost from_gives = { λ verdict numbers. numbers ≡ numbers_of verdict };

    #[tactic(auto, using(crate::proofs::Numbered::reason_told), unfolding(crate::specs::Coded::numbers_of))]
    fn from(verdict: Verdict) -> Numbers {
        match verdict {
            Ok(accepted) => Numbers {
                outcome: Outcome::Accepted,
                first: accepted.payouts,
                second: accepted.spare,
            },
            Err(Objection::Rejected { payout, reason }) => Numbers {
                outcome: Outcome::Rejected,
                first: payout,
                second: usize::from(reason),
            },
            Err(Objection::Refused(refusal)) => Numbers::from(refusal),
        }
    }
}
