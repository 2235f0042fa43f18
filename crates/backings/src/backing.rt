// SPDX-License-Identifier: Apache-2.0 OR MIT
// The backings of an entry by number: backing i is debit i, and behind the debits an asset parameter. It stands in the file at the
// i-th place of a table, the call of a debit and the parameter itself. The file or its facts, the entry and the number stand side
// by side: an entry is lent for all its backings, and the facts go on to the next entry.
ghost use Rattle.std.specs.Prelude.{◌≡◌, ◌≤◌, ◌*◌, length, take, drop};
ghost use Rattle.fields.specs.Field.{fields, front, part};
ghost use Rattle.walking.specs.Walking.{peel, receiver};
ghost use Rattle.walking.specs.Table.{placed_at};
ghost use Rattle.bounds.specs.Backing.{backing_field};
ghost use Rattle.tokens.specs.Tokens.{differ, admitted_inflow_token};
ghost use Rattle.tokens.specs.Numbers.{tokens_number};
ghost use Rattle.tokens.specs.Place.{token_place};
ghost use Rattle.fundings.specs.FundingTokens.{funding_token};
ghost use Rattle.fundings.specs.Fundings.{funding_number};
ghost use Rattle.entries.specs.Entered.{entry_of};
ghost use Rattle.guards.specs.Payouts.{payout_token};
ghost use Rattle.backings.specs.Tables.{Admitted, debit_at, amount_in, token_at};

use bounds::Amount;
use entries::entry::Entry;
use fields::front::part_of;
use fundings::facts::Facts;
use guards::payout::{part_at, payout_token};
use model::name_of;
use tokens::entry::entry_at;
use tokens::number::{token_of, tokens_number};
use tokens::set::tokens_differ;
use walking::peel::peel;
use walking::shape::receiver;

// The amount, peeled, of the debit at the front of s.
fn debit_amount(s: &[u8]) -> &[u8]
    ensures { front result.now ≡ peel (part 2 (front s.now)) }
{
    peel(part_of(s, 2))
}

// The amount of backing number i of an entry, the debits first: that of a debit, or of a parameter.
#[tactic(auto, unfolding(crate::specs::Tables::amount_in, bounds::specs::Backing::backing_field))]
pub fn backing_amount<'a>(file: &'a [u8], entry: &Entry, i: usize) -> Amount<'a>
    ensures { backing_field result ≡ amount_in file.now entry.now i }
{
    let part = part_at(file, &entry.backed, i);
    if i < entry.debits {
        return Amount::Expression(debit_amount(part));
    }
    Amount::OfParameter(name_of(part))
}

// The number of the token that the entry at a place admits. It is worked out where a match first asks for it, and then remembered.
fn admitted_number(
    facts: &Facts,
    place: usize,
    admitted: &mut Option<usize>,
    scratch: &mut [u16],
) -> usize
    requires inside { place ≤ length facts.now.file.now }
    requires room { length facts.now.file.now ≤ 3 * length scratch.old }
    requires admits { Admitted facts.now.file.now place admitted.old }
    ensures number { result ≡ tokens_number facts.now.file.now (placed_at facts.now.file.now place) }
    ensures admits { Admitted facts.now.file.now place admitted.new }
{
    let entry = entry_at(facts.file, place);
    *admitted.get_or_insert_with(|| tokens_number(&entry, scratch))
}

// The token of a debit: the one that funds the map of debit number i.
fn debit_token<'a>(facts: &Facts<'a>, entry: &Entry, i: usize) -> &'a [u8]
    ensures reads { result.now ≡ funding_token (fields facts.now.file.now) (receiver (debit_at facts.now.file.now entry.now.backed i)) }
    ensures shows { result.now ≡ take (length result.now) (drop (token_place facts.now.file.now (funding_number facts.now.file.now (receiver (debit_at facts.now.file.now entry.now.backed i)))) facts.now.file.now) }
{
    let debit = part_at(facts.file, &entry.backed, i);
    facts.funded_token(receiver(debit))
}

// The token of an asset parameter: the one that the entry at a place admits, whose number is known.
fn parameter_token(file: &[u8], place: usize, number: usize) -> &[u8]
    requires { number ≡ tokens_number file.now (placed_at file.now place) }
    ensures reads { result.now ≡ admitted_inflow_token (entry_of file.now place) }
    ensures shows { result.now ≡ take (length result.now) (drop (token_place file.now (tokens_number file.now (placed_at file.now place))) file.now) }
{
    token_of(file, number)
}

// Whether the token of backing number i and that of the payout at the front of s are both known and differ. A backing's token takes
// long to work out, so that it is asked only of a backing that matches. The one that the entry admits is then remembered. What is
// remembered of state fields does not matter here, so that the facts and the scratch table are lent, and not a Reading.
pub fn tokens_conflict(
    facts: &Facts,
    entry: &Entry,
    i: usize,
    s: &[u8],
    admitted: &mut Option<usize>,
    scratch: &mut [u16],
) -> bool
    requires inside { entry.now.place ≤ length facts.now.file.now }
    requires admits { Admitted facts.now.file.now entry.now.place admitted.old }
    requires room { length facts.now.file.now ≤ 3 * length scratch.old }
    ensures answer { result ≡ differ (token_at facts.now.file.now entry.now i) (payout_token (front s.now)) }
    ensures admits { Admitted facts.now.file.now entry.now.place admitted.new }
{
    if i < entry.debits {
        let token = debit_token(facts, entry, i);
        return tokens_differ(token, payout_token(s));
    }
    let number = admitted_number(facts, entry.place, admitted, scratch);
    let token = parameter_token(facts.file, entry.place, number);
    tokens_differ(token, payout_token(s))
}
