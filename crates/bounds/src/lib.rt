// SPDX-License-Identifier: Apache-2.0 OR MIT
// Whether a backing bounds an amount. An expression is the part of the file that starts with it.
#![tactic(auto)]

ghost use Rattle.std.specs.Prelude.{◌≡◌};
ghost use Rattle.fields.specs.Field.{front};
ghost use Rattle.equality.specs.Equality.{expr_eq};
ghost use Rattle.bounds.specs.Bounds.{goes_left, wrapping_inside, bounded_by_backing};
ghost use Rattle.bounds.specs.Backing.{backing_field};

use equality::{expr_eq, is_amount_of};
use fields::front::{part_of, tag_of};
use tags::{CHECKED, DIV, REM, SHR, SUB, WRAPPING};
use walking::peel::peel;

// A backing's amount: an expression of the file, or the `p.amount` of the parameter of a name. No such expression need stand
// in the file.
#[derive(Clone, Copy)]
pub enum Amount<'a> {
    Expression(&'a [u8]),
    OfParameter(&'a [u8]),
}

// Whether the rule goes into the first part of a field with that tag. Wrapping is on or off in the rule, too, and C hands it on as
// a Bool.
#[tactic(auto, unfolding(crate::specs::Bounds::goes_left))]
fn goes_left(tag: u8, wrapping: bool) -> bool
    ensures { result ≡ goes_left tag wrapping }
{
    match tag {
        CHECKED | WRAPPING | DIV | SHR | REM => true,
        SUB => !wrapping,
        _ => false,
    }
}

// Whether wrapping is on there.
#[tactic(auto, unfolding(crate::specs::Bounds::wrapping_inside))]
fn wrapping_inside(tag: u8, wrapping: bool) -> bool
    ensures { result ≡ wrapping_inside tag wrapping }
{
    match tag {
        WRAPPING => true,
        CHECKED => false,
        _ => wrapping,
    }
}

// Whether the backing equals the expression at the front of s.
#[tactic(auto, unfolding(crate::specs::Backing::backing_field))]
pub fn backing_eq(backing: Amount, s: &[u8]) -> bool
    ensures { result ≡ expr_eq (backing_field backing.entry) (front s.now) }
{
    match backing {
        Amount::Expression(amount) => expr_eq(amount, s),
        Amount::OfParameter(name) => is_amount_of(name, s),
    }
}

// Whether such a backing bounds the amount. The rule goes into one part at most, so it is a loop, which counts nothing. The amount
// is peeled for the comparison only: its wrappers turn wrapping on and off.
pub fn bounded_by(amount: &[u8], backing: Amount, wrapping: bool) -> bool
    ensures { result ≡ bounded_by_backing (front amount.now) (backing_field backing.entry) wrapping }
{
    let mut part = amount;
    let mut wrapping_here = wrapping;
    loop {
        let peeled = peel(part);
        if backing_eq(backing, peeled) {
            return true;
        }
        let tag = tag_of(part);
        if !goes_left(tag, wrapping_here) {
            return false;
        }
        wrapping_here = wrapping_inside(tag, wrapping_here);
        part = part_of(part, 0);
    }
}

// Whether a backing that stands in the file bounds the amount.
#[tactic(auto, unfolding(crate::specs::Backing::backing_field))]
pub fn bounded_by_backing(amount: &[u8], backing: &[u8], wrapping: bool) -> bool
    ensures { result ≡ bounded_by_backing (front amount.now) (front backing.now) wrapping }
{
    bounded_by(amount, Amount::Expression(backing), wrapping)
}
