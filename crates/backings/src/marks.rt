// SPDX-License-Identifier: Apache-2.0 OR MIT
// Which backings are free, and which reserves are used: a state that each payout changes.
ghost use Rattle.std.specs.Prelude.{◌≡◌, ◌+◌, eqb};
ghost use Rattle.laws.specs.Lists.{any};
ghost use Rattle.fields.specs.Field.{front};
ghost use Rattle.guards.specs.Payouts.{payout_amount};
ghost use Rattle.bounds.specs.Backing.{backing_field};
ghost use Rattle.backings.specs.Tables.{tested_amount, passes, asked_by, equal_to, first_free, any_taken};
ghost use Rattle.backings.specs.Marked.{all_free, mark_at, without, with_used, used_of};

use super::backing::backing_amount;
use bounds::{Amount, backing_eq, bounded_by};
use entries::entry::Entry;
use fields::bytes::keep;
use guards::payout::payout_amount;
use walking::peel::peel;

// What a backing is asked of the amount of a payout: whether it equals it, or bounds it. Every comparison of amounts is one of
// these.
#[derive(Clone, Copy)]
pub enum Test {
    Equals,
    Bounds,
}

impl Test {
    // The amount that is asked about: peeled to be equal, once for all backings, and with its wrappers to be bounded.
    fn tested_amount(self, amount: &[u8]) -> &[u8]
        ensures { front result.now ≡ tested_amount self (front amount.now) }
    {
        match self {
            Test::Equals => peel(amount),
            Test::Bounds => amount,
        }
    }

    // Whether a backing with an amount passes.
    fn passes(self, backing: Amount, amount: &[u8]) -> bool
        ensures { result ≡ passes self (front amount.now) (backing_field backing.entry) }
    {
        match self {
            Test::Equals => backing_eq(backing, amount),
            Test::Bounds => bounded_by(amount, backing, false),
        }
    }
}

// Backings by number, at most 64, and the state fields that are used, at most one for each of 64 payouts: so many as are counted
// beside them, and no ArrayVec, of which there is no copy, as there is of the marks.
#[derive(Clone, Copy)]
pub struct Marks {
    pub free: [bool; 64],
    pub used: [usize; 64],
    pub uses: usize,
}

impl Marks {
    // Every backing is free.
    #[tactic(auto, unfolding(crate::specs::Marked::all_free))]
    pub fn all_free() -> Marks
        ensures { result ≡ all_free }
    {
        Marks {
            free: [true; 64],
            used: [0; 64],
            uses: 0,
        }
    }

    // Whether backing number i is free.
    #[tactic(auto, unfolding(crate::specs::Marked::mark_at))]
    fn is_free(&self, i: usize) -> bool
        ensures { result ≡ mark_at self.now.free i }
    {
        self.free.get(i).copied().unwrap_or(false)
    }

    // Takes the mark of backing number i away. By an index: after a write through `get_mut` nothing is known of the marks.
    #[tactic(auto, unfolding(crate::specs::Marked::without))]
    pub fn take_backing(&mut self, i: usize)
        ensures { self.new ≡ without self.old i }
    {
        if i < self.free.len() {
            self.free[i] = false;
        }
    }

    // The same of the asset parameter with an index, which stands behind the debits, of which there are so many.
    #[tactic(auto, unfolding(crate::specs::Marked::without))]
    pub fn take_parameter(&mut self, count: usize, index: usize)
        ensures { self.new ≡ without self.old (count + index) }
    {
        self.take_backing(count.saturating_add(index));
    }

    // One more reserve is used; 64 find room.
    #[tactic(auto, unfolding(crate::specs::Marked::with_used))]
    pub fn take_reserve(&mut self, index: usize)
        ensures { self.new ≡ with_used self.old index }
    {
        if self.uses < self.used.len() {
            self.used[self.uses] = index;
            self.uses += 1;
        }
    }

    // Whether the state field with an index is used.
    pub fn is_used(&self, index: usize) -> bool
        ensures { result ≡ any (eqb index) (used_of self.now) }
    {
        keep(&self.used, self.uses).contains(&index)
    }

    // The number of the first free backing that passes a test against the amount of the payout at the front of s.
    pub fn first_free(&self, file: &[u8], entry: &Entry, test: Test, s: &[u8]) -> Option<usize>
        ensures { result ≡ first_free file.now entry.now self.now (asked_by test (payout_amount (front s.now))) }
    {
        let amount = test.tested_amount(payout_amount(s));
        (0..entry.total).find(|&i| self.is_free(i)
            && test.passes(backing_amount(file, entry, i), amount))
    }

    // Whether a taken backing equals it. A function for both would take whether it asks the free ones, and here find a number in
    // vain.
    pub fn is_taken(&self, file: &[u8], entry: &Entry, s: &[u8]) -> bool
        ensures { result ≡ any_taken file.now entry.now self.now (equal_to (payout_amount (front s.now))) }
    {
        let amount = Test::Equals.tested_amount(payout_amount(s));
        (0..entry.total).any(|i| !self.is_free(i)
            && Test::Equals.passes(backing_amount(file, entry, i), amount))
    }
}
