// SPDX-License-Identifier: Apache-2.0 OR MIT
// The statements that set, add to or subtract from a state field. The field's name stands beside the statement, which knows nothing
// of it.
ghost use Rattle.std.specs.Prelude.{◌≡◌};
ghost use Rattle.fields.specs.Field.{front};
ghost use Rattle.raises.specs.Raises.{assigns, value, sets_from};

use fields::bytes::same_bytes;
use fields::front::{part_of, tag_of};
use tags::{SET, is_assign};
use walking::peel::peel;
use walking::shape::ident;

// Whether the statement at the front of s sets, adds to or subtracts from the state field of that name. It is asked of each
// statement, and so it is compiled into the loops.
#[inline(always)]
#[tactic(auto, unfolding(crate::specs::Raises::assigns))]
pub fn assigns(name: &[u8], s: &[u8]) -> bool
    ensures { result ≡ assigns name.now (front s.now) }
{
    is_assign(tag_of(s)) && same_bytes(ident(part_of(s, 0)), name)
}

// What it sets, adds or subtracts, peeled.
#[tactic(auto, unfolding(crate::specs::Raises::value))]
pub fn value_of(s: &[u8]) -> &[u8]
    ensures { front result.now ≡ value (front s.now) }
{
    peel(part_of(s, 1))
}

// Whether it sets the state field to itself and something: the operator is the one between them, and its first side is
// peeled.
#[tactic(auto, unfolding(crate::specs::Raises::sets_from))]
pub fn sets_from(operator: u8, name: &[u8], s: &[u8]) -> bool
    ensures { result ≡ sets_from operator name.now (front s.now) }
{
    if tag_of(s) != SET {
        return false;
    }
    let value = value_of(s);
    tag_of(value) == operator && same_bytes(ident(peel(part_of(value, 0))), name)
}
