// SPDX-License-Identifier: Apache-2.0 OR MIT
// A guard that says r >, >= amount or amount <, <= r. A guard's expression is the part of the file that starts with it. The amount
// stands beside what is compared with it, in which it need not occur.
ghost use Rattle.std.specs.Prelude.{◌≡◌, ◌≤◌, [], length, IfSome, MatchOption};
ghost use Rattle.fields.specs.Field.{fields, front, nothing};
ghost use Rattle.walking.specs.Walking.{peel, ident};
ghost use Rattle.guards.specs.Guards.{guarded_field, guarded_amount};
ghost use Rattle.guards.specs.Bounding.{bounds, bounding, bounding_from};

use equality::expr_eq;
use fields::front::{part_of, tag_of};
use fields::row::{Field, fields_at};
use tags::{GE, GT, GUARD, LE, LT};
use walking::peel::peel;
use walking::shape::ident;

// The two sides of the guard at the front of s, that of its state field and that of its amount: > and >= bound the right side by
// the left one, and < and <= the left one by the right one.
#[tactic(auto, unfolding(crate::specs::Guards::guarded_field, crate::specs::Guards::guarded_amount))]
fn sides(s: &[u8]) -> Option<(&[u8], &[u8])>
    ensures field { MatchOption result (guarded_field (front s.now) ≡ []) (λ p. guarded_field (front s.now) ≡ ident (peel (front p.0.now))) }
    ensures amount { MatchOption result (guarded_amount (front s.now) ≡ nothing) (λ p. guarded_amount (front s.now) ≡ peel (front p.1.now)) }
{
    let guard = peel(s);
    match tag_of(guard) {
        GT | GE => Some((part_of(guard, 0), part_of(guard, 1))),
        LT | LE => Some((part_of(guard, 1), part_of(guard, 0))),
        _ => None,
    }
}

// The r of the guard at the front of s; no bytes of any other expression.
pub fn guarded_field(s: &[u8]) -> &[u8]
    ensures { result.now ≡ guarded_field (front s.now) }
{
    sides(s).map_or(&[], |(field, _)| ident(peel(field)))
}

// Its amount, peeled; no field of any other expression.
pub fn guarded_amount(s: &[u8]) -> &[u8]
    ensures { front result.now ≡ guarded_amount (front s.now) }
{
    sides(s).map_or(&[], |(_, amount)| peel(amount))
}

// Whether the guard at the front of s bounds the amount.
#[tactic(auto, unfolding(crate::specs::Bounding::bounds))]
fn bounds(amount: &[u8], s: &[u8]) -> bool
    ensures { result ≡ bounds (front amount.now) (front s.now) }
{
    expr_eq(guarded_amount(part_of(s, 0)), amount)
}

// The first guard of s that bounds the amount.
pub fn first_guard<'a>(s: &'a [u8], amount: &[u8]) -> Option<Field<'a>>
    ensures found { bounding (front amount.now) (fields s.now) ≡ bounding_from (front amount.now) result }
    ensures within { IfSome result (λ g. length g.part.now ≤ length s.now) }
{
    fields_at(s, 0).find(|field| field.tag() == GUARD && bounds(amount, field.part))
}
