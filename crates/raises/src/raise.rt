// SPDX-License-Identifier: Apache-2.0 OR MIT
// The statements that raise a state field, and whether an entry has one.
ghost use Rattle.std.specs.Prelude.{◌≡◌};
ghost use Rattle.fields.specs.Field.{front};
ghost use Rattle.raises.specs.Raising.{is_raise, raised_by, raising};

use super::assignment::{assigns, sets_from, value_of};
use fields::front::{part_of, parts_of, tag_of};
use fields::row::fields_at;
use tags::{ADD, ADD_TO, SET, SUB};
use walking::peel::peel;

// Whether the statement at the front of s raises the state field of that name. The tag tells that soonest, so it is asked before
// the names are compared: only what sets or adds can raise, and any subtraction from the field is no raise.
#[tactic(auto, using(crate::proofs::Statements::no_raise), unfolding(crate::specs::Raising::is_raise))]
pub fn is_raise(name: &[u8], s: &[u8]) -> bool
    ensures { result ≡ is_raise name.now (front s.now) }
{
    match tag_of(s) {
        SET | ADD_TO => assigns(name, s) && !sets_from(SUB, name, s),
        _ => false,
    }
}

// What it raises it by: v where it sets the field to itself plus v, else the whole value.
#[tactic(auto, unfolding(crate::specs::Raising::raised_by))]
pub fn raised_by<'a>(name: &[u8], s: &'a [u8]) -> &'a [u8]
    ensures { front result.now ≡ raised_by name.now (front s.now) }
{
    let value = value_of(s);
    if sets_from(ADD, name, s) {
        return peel(part_of(value, 1));
    }
    value
}

// Whether the entry at the front of s raises the state field.
pub fn has_raise(s: &[u8], name: &[u8]) -> bool
    ensures { result ≡ raising name.now (front s.now) }
{
    fields_at(parts_of(s), 0).any(|statement| is_raise(name, statement.part))
}
