// SPDX-License-Identifier: Apache-2.0 OR MIT
// The calls that use an amount, among those at the places of a table: all of an entry's body, listed once for all its raises.
ghost use Rattle.std.specs.Prelude.{◌≡◌, drop};
ghost use Rattle.laws.specs.Lists.{any, find};
ghost use Rattle.fields.specs.Field.{front, part};
ghost use Rattle.walking.specs.Walking.{is_debit, peel};
ghost use Rattle.equality.specs.Equality.{expr_eq};
ghost use Rattle.tokens.specs.Tokens.{is_credit};
ghost use Rattle.reserve_tokens.specs.Reserving.{with_amount};

use equality::expr_eq;
use fields::bytes::skip;
use fields::front::part_of;
use tokens::inflow::is_credit;
use walking::peel::peel;
use walking::shape::is_debit;

// Whether the second argument, peeled, of the call at the front of s is the amount. This is asked before the kind of the call: it
// takes less time than to read the shape of a call, and few calls have it.
fn has_amount(amount: &[u8], s: &[u8]) -> bool
    ensures { result ≡ expr_eq (peel (part 2 (front s.now))) (front amount.now) }
{
    expr_eq(peel(part_of(s, 2)), amount)
}

// Whether one of the calls credits, sets or inserts the amount. Both searches are the library's, by the same filter: a function of
// both would be handed the test, and promise what `any` and `find` do.
pub fn is_credited(file: &[u8], amount: &[u8], calls: &[u16]) -> bool
    ensures { result ≡ any (λ call. with_amount is_credit (front amount.now) (front (drop call file.now))) calls.now }
{
    let mut of_amount = calls
        .iter()
        .copied()
        .filter(|&call| has_amount(amount, skip(file, usize::from(call))));
    of_amount.any(|call| is_credit(skip(file, usize::from(call))))
}

// The place of the first of them that is a caller debit of the amount.
pub fn first_debit(file: &[u8], amount: &[u8], calls: &[u16]) -> Option<u16>
    ensures { result ≡ find (λ call. with_amount is_debit (front amount.now) (front (drop call file.now))) calls.now }
{
    let mut of_amount = calls
        .iter()
        .copied()
        .filter(|&call| has_amount(amount, skip(file, usize::from(call))));
    of_amount.find(|&call| is_debit(skip(file, usize::from(call))))
}
