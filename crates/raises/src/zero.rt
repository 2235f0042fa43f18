// SPDX-License-Identifier: Apache-2.0 OR MIT
// Whether a state field starts at zero. The field's name stands beside the file, which callers have from elsewhere.
ghost use Rattle.std.specs.Prelude.{◌≡◌};
ghost use Rattle.laws.specs.Lists.{all};
ghost use Rattle.fields.specs.Field.{fields, front};
ghost use Rattle.raises.specs.Raises.{is_zero, defaults, genesis_values, starts_at_zero};
ghost use Rattle.raises.specs.Raising.{zero_digits, default_passes, genesis_passes};

use super::assignment::assigns;
use fields::front::{part_of, tag_of, text_of};
use fields::row::fields_at;
use model::is_named;
use tags::{GENESIS, INTEGER, STATE};
use walking::peel::peel;
use walking::shape::is_present;

// Whether a text has no other bytes than 0 and _.
#[tactic(auto, unfolding(crate::specs::Raising::zero_digits))]
fn has_zero_digits(s: &[u8]) -> bool
    ensures { result ≡ zero_digits s.now }
{
    s.iter().all(|c| matches!(*c, b'0' | b'_'))
}

// Whether the expression at the front of s is, peeled, an integer of 0 and _ only.
#[tactic(auto, unfolding(crate::specs::Raises::is_zero, crate::specs::Raising::zero_digits))]
pub fn is_zero(s: &[u8]) -> bool
    ensures { result ≡ is_zero (front s.now) }
{
    let value = peel(s);
    tag_of(value) == INTEGER && has_zero_digits(text_of(value))
}

// Whether the state field at the front of s has another name, no default or a zero one.
#[tactic(auto, unfolding(crate::specs::Raising::default_passes))]
fn default_passes(name: &[u8], s: &[u8]) -> bool
    ensures { result ≡ default_passes name.now (front s.now) }
{
    if !is_named(s, name) {
        return true;
    }
    let default = part_of(s, 2);
    !is_present(default) || is_zero(default)
}

// Whether the default of the state field of that name is zero, if there is one. (Why it is no twin of genesis_is_zero, see there.)
fn default_is_zero(file: &[u8], name: &[u8]) -> bool
    ensures { result ≡ all is_zero (defaults (fields file.now) name.now) }
{
    fields_at(file, 0)
        .filter(|field| field.tag() == STATE)
        .all(|field| default_passes(name, field.part))
}

// Whether the genesis statement at the front of s assigns to another target, or zero.
#[tactic(auto, unfolding(crate::specs::Raising::genesis_passes))]
fn genesis_passes(name: &[u8], s: &[u8]) -> bool
    ensures { result ≡ genesis_passes name.now (front s.now) }
{
    let statement = part_of(s, 0);
    !assigns(name, statement) || is_zero(part_of(statement, 1))
}

// Whether the value of every genesis assignment to the state field is zero. It reads like default_is_zero, with another tag and
// another test: one function would be handed both, and its promise would be that of `filter` and `all` themselves.
fn genesis_is_zero(file: &[u8], name: &[u8]) -> bool
    ensures { result ≡ all is_zero (genesis_values (fields file.now) name.now) }
{
    fields_at(file, 0)
        .filter(|field| field.tag() == GENESIS)
        .all(|field| genesis_passes(name, field.part))
}

// Whether the state field of that name starts at zero.
#[tactic(auto, unfolding(crate::specs::Raises::starts_at_zero))]
pub fn starts_at_zero(file: &[u8], name: &[u8]) -> bool
    ensures { result ≡ starts_at_zero (fields file.now) name.now }
{
    default_is_zero(file, name) && genesis_is_zero(file, name)
}
