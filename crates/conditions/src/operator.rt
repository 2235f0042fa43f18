// SPDX-License-Identifier: Apache-2.0 OR MIT
// The operator of a condition, after any flipping.
ghost use Rattle.std.specs.Prelude.{◌≡◌, cond};
ghost use Rattle.conditions.specs.Conditions.{opposite};

use tags::{EQ, GE, GT, LE, LT, NE};

// Eq/Ne, Lt/Ge, Gt/Le trade places; any other tag stays.
#[tactic(auto, unfolding(crate::specs::Conditions::opposite))]
fn opposite_of(tag: u8) -> u8
    ensures { result ≡ opposite tag }
{
    match tag {
        EQ => NE,
        NE => EQ,
        LT => GE,
        GE => LT,
        GT => LE,
        LE => GT,
        _ => tag,
    }
}

// The tag that a condition's expression is read with. That a condition is flipped is a yes or no of the rules, and a bit of its
// number in a table.
pub fn operator_of(tag: u8, flipped: bool) -> u8
    ensures { result ≡ cond flipped (opposite tag) tag }
{
    if flipped { opposite_of(tag) } else { tag }
}
