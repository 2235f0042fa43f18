// SPDX-License-Identifier: Apache-2.0 OR MIT
// The state field that covers a payout. Nothing is worked out before a payout comes to it, and then what costs least is asked
// first: most payouts ask for no amount that a guard bounds.
ghost use Rattle.std.specs.Prelude.{◌≡◌};
ghost use Rattle.fields.specs.Field.{front};
ghost use Rattle.walking.specs.Table.{placed_at};
ghost use Rattle.guards.specs.Bounding.{bounding_from};
ghost use Rattle.guards.specs.Lowerings.{lowering_numbers};
ghost use Rattle.reserves.specs.Reading.{file_of, Same};
ghost use Rattle.reserves.specs.Covers.{asked_reserve, first_holding, first_covering};
ghost use Rattle.std.specs.Prelude.{None};

use super::ahead::{doubled, list_ahead};
use super::reading::Reading;
use entries::entry::Entry;
use fields::bytes::skip;
use fields::front::parts_of;
use fields::named::Named;
use fields::row::Field;
use guards::contained::contains_inflow;
use guards::guarded::first_guard;
use guards::lowering::list_lowerings;
use guards::payout::{asked_amount, asked_token};
use reserve_tokens::reserve::FIELDS;

// One for each nine bytes of a file that passes question 1: a statement that lowers a state field takes as many at least.
const LOWERINGS: usize = 3641;

impl<'a, 't> Reading<'a, 't> {
    // The first of some numbers whose state field holds the token.
    fn first_holding(&mut self, numbers: &[u16], token: &[u8]) -> Option<usize>
        ensures same { Same self.old self.new }
        ensures found { result ≡ first_holding (file_of self.old) token.now numbers.now None }
    {
        for &listed in numbers {
            let number = usize::from(listed);
            if self.holds_token(number, token) {
                return Some(number);
            }
        }
        None
    }

    // That of the first guard that bounds the amount and whose state field covers it, from a given one on. One whose field does not
    // cover does not stop the search. Each time twice as many guards are listed ahead, so that of most fields whose
    // tokens are worked out they are asked for.
    fn first_covering(
        &mut self,
        guard: Field,
        amount: &[u8],
        token: &[u8],
        lowerings: &[Named],
    ) -> Option<usize>
        ensures same { Same self.old self.new }
        ensures found { result ≡ first_covering (file_of self.old) token.now lowerings.now (bounding_from (front amount.now) (Some guard.entry)) }
    {
        let file = self.facts.file;
        let mut ahead = Some(guard);
        let mut most = 1;
        // It goes on while there is a guard, and counts nothing.
        while let Some(next) = ahead {
            let (numbers, left) = list_ahead::<FIELDS>(file, next, amount, lowerings, most);
            self.work_out_unknown(numbers.as_slice());
            if let Some(index) = self.first_holding(numbers.as_slice(), token) {
                return Some(index);
            }
            ahead = left;
            most = doubled(most);
        }
        None
    }

    // The same by what lowers a state field by the amount in the entry at a place of the file, which is listed first.
    fn first_lowered(
        &mut self,
        place: usize,
        guard: Field,
        amount: &[u8],
        token: &[u8],
    ) -> Option<usize>
        ensures same { Same self.old self.new }
        ensures found { result ≡ first_covering (file_of self.old) token.now (lowering_numbers (front amount.now) (placed_at (file_of self.old) place)) (bounding_from (front amount.now) (Some guard.entry)) }
    {
        let mut table = [Named::default(); LOWERINGS];
        let lowerings = list_lowerings(self.facts.file, place, amount, &mut table);
        self.first_covering(guard, amount, token, lowerings.listed())
    }

    // The state field that covers the amount of the k-th payout for its token. The maps that some call funds are listed before a
    // field's token is worked out, since its raises may come from maps.
    pub fn reserve_bounding_payout(&mut self, entry: &Entry, k: usize) -> Option<usize>
        ensures same { Same self.old self.new }
        ensures found { result ≡ asked_reserve (file_of self.old) entry.now.place entry.now.paid k }
    {
        let file = self.facts.file;
        let token = asked_token(file, &entry.paid, k);
        if token.is_empty() {
            return None;
        }
        let amount = asked_amount(file, &entry.paid, k);
        let here = skip(file, entry.place);
        let guard = first_guard(parts_of(here), amount)?;
        if !contains_inflow(here, amount, self.scratch) {
            return None;
        }
        self.list_facts();
        self.first_lowered(entry.place, guard, amount, token)
    }
}
