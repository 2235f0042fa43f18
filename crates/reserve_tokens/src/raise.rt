// SPDX-License-Identifier: Apache-2.0 OR MIT
// The token of one raise, and whether it bars the field. A token is known by its number, which is the place of a comparison that
// names it.
ghost use Rattle.std.specs.Prelude.{◌≡◌, cond, take, drop};
ghost use Rattle.tags.specs.Tag.{Call};
ghost use Rattle.fields.specs.Field.{front};
ghost use Rattle.walking.specs.Walking.{body_exprs};
ghost use Rattle.walking.specs.Assets.{Assets};
ghost use Rattle.walking.specs.Table.{placed_at, places_of};
ghost use Rattle.tokens.specs.Numbers.{token_of};
ghost use Rattle.reserve_tokens.specs.ReserveTokens.{credited};
ghost use Rattle.reserve_tokens.specs.Reserving.{Found, bars};
ghost use Rattle.reserve_tokens.specs.Numbers.{guard_numbers, only_number, debit_number, raise_number};

use super::calls::{first_debit, is_credited};
use fields::bytes::skip;
use fields::named::Named;
use fields::table::TableView;
use fundings::facts::Facts;
use tokens::inflow::is_listed_inflow;
use tokens::number::token_of;
use tokens::set::tokens_differ;
use walking::shape::receiver;

// An entry that raises a state field, of the file that the facts are of: its place, the number of the token that its only such
// guard names, the places of the calls of its body, and its asset parameters.
#[derive(Clone, Copy)]
pub struct Raising<'a> {
    pub facts: &'a Facts<'a>,
    pub place: usize,
    pub guard: usize,
    pub calls: TableView<'a, u16>,
    pub assets: TableView<'a, Named>,
    ghost guarded: { guard ≡ only_number (guard_numbers facts.now.file.now (placed_at facts.now.file.now place)) },
    ghost called: { take calls.count calls.items.now ≡ places_of Call (body_exprs (placed_at facts.now.file.now place)) },
    ghost listed: { Assets (drop place facts.now.file.now) assets },
}

impl<'a> Raising<'a> {
    // The number of the token of a raise by `p.amount`: that of the guard, and no call may credit the amount too.
    fn inflow_number(&self, amount: &[u8]) -> usize
        ensures { result ≡ cond (credited (front (drop self.now.place self.now.facts.now.file.now)) (front amount.now)) 0 self.now.guard }
    {
        if is_credited(self.facts.file, amount, self.calls.listed()) {
            return 0;
        }
        self.guard
    }

    // The number of the token of any other raise: the funding token of the map of the first debit of the amount.
    fn debit_number(&self, amount: &[u8]) -> usize
        ensures { result ≡ debit_number self.now.facts.now.file.now (front (drop self.now.place self.now.facts.now.file.now)) (front amount.now) }
    {
        let file = self.facts.file;
        match first_debit(file, amount, self.calls.listed()) {
            Some(debit) => self
                .facts
                .funding_number(receiver(skip(file, usize::from(debit)))),
            None => 0,
        }
    }

    // The number of the token of a raise by the amount. One by `p.amount` is never looked for among the debits.
    pub fn raise_number(&self, amount: &[u8]) -> usize
        ensures { result ≡ raise_number self.now.facts.now.file.now (placed_at self.now.facts.now.file.now self.now.place) (front amount.now) }
    {
        if is_listed_inflow(skip(self.facts.file, self.place), &self.assets, amount) {
            return self.inflow_number(amount);
        }
        self.debit_number(amount)
    }
}

// Whether the token of a raise bars the field: it is unknown, or another than the one found so far. Most raises have the
// number that was found, and then no token is read.
pub fn is_barred(file: &[u8], found: usize, number: usize) -> bool
    requires { Found file.now found }
    ensures { result ≡ bars (token_of file.now found) (token_of file.now number) }
{
    if number == found {
        return number < 2;
    }
    let token = token_of(file, number);
    if token.len() == 0 {
        return true;
    }
    tokens_differ(token_of(file, found), token)
}
