// SPDX-License-Identifier: Apache-2.0 OR MIT
// A payout's token and amount. The payouts that ask for a state field stand in the file at the places of a table; the number beside
// a table is the payout's own, and not how long the table is.
ghost use Rattle.std.specs.Prelude.{◌≡◌, ◌≤◌, length, get_or, drop};
ghost use Rattle.fields.specs.Field.{front};
ghost use Rattle.guards.specs.Payouts.{payout_token, payout_amount};
ghost use Rattle.guards.specs.Asked.{asked_token, asked_amount};

use fields::bytes::{same_bytes, skip};
use fields::front::part_of;
use walking::peel::peel;
use walking::shape::{ident, method};

// The token of the payout at the front of s: its first argument, peeled, if an identifier.
#[tactic(auto, unfolding(crate::specs::Payouts::payout_token))]
pub fn payout_token(s: &[u8]) -> &[u8]
    ensures { result.now ≡ payout_token (front s.now) }
{
    ident(peel(part_of(s, 1)))
}

// Its amount, unpeeled: its third argument, or the first one of the call of a member `split` that this is.
#[tactic(auto, unfolding(crate::specs::Payouts::payout_amount))]
pub fn payout_amount(s: &[u8]) -> &[u8]
    ensures reads { front result.now ≡ payout_amount (front s.now) }
    ensures within { length result.now ≤ length s.now }
{
    let value = part_of(s, 3);
    let call = peel(value);
    if same_bytes(method(call), b"split") {
        return part_of(call, 1);
    }
    value
}

// The part of the file that starts at the i-th place of a table, as of an entry's backings or payouts.
pub fn part_at<'a>(file: &'a [u8], places: &[u16], i: usize) -> &'a [u8]
    ensures { result.now ≡ drop (get_or places.now i 0) file.now }
{
    skip(file, usize::from(places.get(i).copied().unwrap_or(0)))
}

// The token that the k-th payout of the table asks for.
#[tactic(auto, unfolding(crate::specs::Asked::asked_token))]
pub fn asked_token<'a>(file: &'a [u8], asked: &[u16], k: usize) -> &'a [u8]
    ensures { result.now ≡ asked_token file.now asked.now k }
{
    payout_token(part_at(file, asked, k))
}

// The amount, peeled, of the k-th payout of the table.
#[tactic(auto, unfolding(crate::specs::Asked::asked_amount, crate::specs::Asked::paid_at))]
pub fn asked_amount<'a>(file: &'a [u8], asked: &[u16], k: usize) -> &'a [u8]
    ensures reads { front result.now ≡ asked_amount file.now asked.now k }
    ensures within { length result.now ≤ length file.now }
{
    peel(payout_amount(part_at(file, asked, k)))
}
