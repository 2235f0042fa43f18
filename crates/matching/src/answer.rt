// SPDX-License-Identifier: Apache-2.0 OR MIT
// The answer for one payout: a cover or a rejection. The steps are those of the rules, each of which decides or leaves the payout
// to the next.
ghost use Rattle.std.specs.Prelude.{◌≡◌, ◌+◌, ◌≤◌, None, OnErr, unwrap_or};
ghost use Rattle.reserves.specs.Reading.{file_of, Same};
ghost use Rattle.backings.specs.Marked.{all_free, uses};
ghost use Rattle.backings.specs.Tables.{Admitted};
ghost use Rattle.matching.specs.Matching.{by_reserve, answer};
ghost use Rattle.matching.specs.Prepared.{Ready};
ghost use Rattle.matching.specs.Coded.{answered, step_by, next_step, cover_at, conflict_at, reserve_at, after_cover, AnswersFor, reason_number};

use super::payout::Payout;
use backings::backing::tokens_conflict;
use backings::marks::{Marks, Test};
use guards::payout::payout_amount;
use reserves::reading::Reading;
use walking::shape::is_present;

// A cover is one of five kinds, with an index among debits, asset parameters or state fields.
#[derive(Clone, Copy, PartialEq, Eq)]
pub enum Cover {
    EqualDebit { index: usize },
    EqualParameter { index: usize },
    BoundingDebit { index: usize },
    BoundingParameter { index: usize },
    Reserve { index: usize },
}

// Why a payout is rejected, with the rules' numbers.
#[derive(Clone, Copy, PartialEq, Eq)]
pub enum Reason {
    SplitWithoutAmount = 1,
    ConflictAtEqual = 2,
    AmountTaken = 3,
    ConflictAtBounding = 4,
    NoReserve = 5,
    ReserveUsed = 6,
}

impl From<Reason> for usize {
    ghost from_gives = { λ reason number. number ≡ reason_number reason };

    fn from(reason: Reason) -> usize {
        // The discriminant is the rules' number.
        reason as usize
    }
}

// The answer for one payout.
pub type Answer = Result<Cover, Reason>;

// The cover by backing number i, the first free one that passes a test.
#[tactic(auto, unfolding(crate::specs::Coded::equal_at, crate::specs::Coded::bounding_at))]
fn cover_at(test: Test, debits: usize, i: usize) -> Cover
    ensures { result ≡ cover_at test debits i }
{
    match (test, i.checked_sub(debits)) {
        (Test::Equals, None) => Cover::EqualDebit { index: i },
        (Test::Equals, Some(index)) => Cover::EqualParameter { index },
        (Test::Bounds, None) => Cover::BoundingDebit { index: i },
        (Test::Bounds, Some(index)) => Cover::BoundingParameter { index },
    }
}

// Why a payout is rejected whose token and that of such a backing conflict.
fn conflict_at(test: Test) -> Reason
    ensures { result ≡ conflict_at test }
{
    match test {
        Test::Equals => Reason::ConflictAtEqual,
        Test::Bounds => Reason::ConflictAtBounding,
    }
}

// The pass over the payouts of an entry: the marks, and what is remembered of the token that the entry admits.
#[derive(Clone, Copy)]
pub struct Pass {
    pub marks: Marks,
    pub admitted: Option<usize>,
}

impl Pass {
    // Every backing is free, and nothing is remembered.
    pub fn start() -> Pass
        ensures marks { result.marks ≡ all_free }
        ensures admits { result.admitted ≡ None }
    {
        Pass {
            marks: Marks::all_free(),
            admitted: None,
        }
    }

    // Takes the mark of what a cover names, or uses it up.
    #[tactic(auto, unfolding(crate::specs::Coded::after_cover))]
    fn take(&mut self, debits: usize, cover: Cover)
        ensures marks { self.new.marks ≡ after_cover self.old.marks debits cover }
        ensures admits { self.new.admitted ≡ self.old.admitted }
    {
        match cover {
            Cover::EqualDebit { index } | Cover::BoundingDebit { index } => {
                self.marks.take_backing(index)
            }
            Cover::EqualParameter { index } | Cover::BoundingParameter { index } => {
                self.marks.take_parameter(debits, index)
            }
            Cover::Reserve { index } => self.marks.take_reserve(index),
        }
    }

    // The reserve at an index, rejecting if it is used.
    #[tactic(auto, unfolding(crate::specs::Coded::reserve_at))]
    fn by_reserve_at(&self, index: usize) -> Answer
        ensures { result ≡ reserve_at self.now.marks index }
    {
        if self.marks.is_used(index) {
            return Err(Reason::ReserveUsed);
        }
        Ok(Cover::Reserve { index })
    }

    // The first covering reserve, rejecting if there is none or it is used. What a payout needs is said of the file, the payout and
    // the pass together, of which each changes by itself, so that it is a clause and no ghost field.
    fn by_reserve(&self, payout: &Payout, reading: &mut Reading) -> Answer
        requires { Ready (file_of reading.old) payout.now self.now }
        ensures same { Same reading.old reading.new }
        ensures answers { result ≡ answered by_reserve (file_of reading.old) payout.now self.now.marks }
    {
        let reserve = reading.reserve_bounding_payout(payout.entry, payout.k);
        let index = reserve.ok_or(Reason::NoReserve)?;
        self.by_reserve_at(index)
    }

    // The answer by the first free backing that passes a test, rejecting if its token and the payout's conflict: no other one is
    // tried then. None where there is no such backing: the next step of the rules decides.
    fn by_backing(&mut self, test: Test, payout: &Payout, reading: &mut Reading) -> Option<Answer>
        requires { Ready (file_of reading.old) payout.now self.old }
        ensures same { Same reading.old reading.new }
        ensures answers { unwrap_or result (answered (next_step test) (file_of reading.old) payout.now self.old.marks)
            ≡ answered (step_by test) (file_of reading.old) payout.now self.old.marks }
        ensures marks { self.new.marks ≡ self.old.marks }
        ensures admits { Admitted (file_of reading.old) payout.now.entry.now.place self.new.admitted }
    {
        let entry = payout.entry;
        let file = reading.facts.file;
        let part = payout.part(file);
        let i = self.marks.first_free(file, entry, test, part)?;
        if tokens_conflict(
            reading.facts,
            entry,
            i,
            part,
            &mut self.admitted,
            reading.scratch,
        ) {
            return Some(Err(conflict_at(test)));
        }
        Some(Ok(cover_at(test, entry.debits, i)))
    }

    // Rejects a split without an amount. Else a free backing that equals the amount decides; then one that is taken rejects; then a
    // free one that bounds it decides, and at last a reserve.
    fn cover_payout(&mut self, payout: &Payout, reading: &mut Reading) -> Answer
        requires { Ready (file_of reading.old) payout.now self.old }
        ensures same { Same reading.old reading.new }
        ensures answers { result ≡ answered answer (file_of reading.old) payout.now self.old.marks }
        ensures marks { self.new.marks ≡ self.old.marks }
        ensures admits { Admitted (file_of reading.old) payout.now.entry.now.place self.new.admitted }
    {
        let file = reading.facts.file;
        let part = payout.part(file);
        if !is_present(payout_amount(part)) {
            return Err(Reason::SplitWithoutAmount);
        }
        if let Some(answer) = self.by_backing(Test::Equals, payout, reading) {
            return answer;
        }
        if self.marks.is_taken(file, payout.entry, part) {
            return Err(Reason::AmountTaken);
        }
        if let Some(answer) = self.by_backing(Test::Bounds, payout, reading) {
            return answer;
        }
        self.by_reserve(payout, reading)
    }

    // The answer for a payout. A cover is taken; a rejection takes nothing.
    pub fn answer_payout(&mut self, payout: &Payout, reading: &mut Reading) -> Answer
        requires { Ready (file_of reading.old) payout.now self.old }
        ensures same { Same reading.old reading.new }
        ensures answers { AnswersFor (file_of reading.old) payout.now.entry.now self.old.marks payout.now.k result self.new.marks }
        ensures uses { uses self.new.marks ≤ uses self.old.marks + 1 }
        ensures kept { OnErr result (self.new.marks ≡ self.old.marks) }
        ensures admits { Admitted (file_of reading.old) payout.now.entry.now.place self.new.admitted }
    {
        let cover = self.cover_payout(payout, reading)?;
        self.take(payout.entry.debits, cover);
        Ok(cover)
    }
}
