// SPDX-License-Identifier: Apache-2.0 OR MIT
// Equality of expressions. An expression is the part of the file that starts with it. What is compared stands side by side, since
// nothing but the question is common to both.
#![tactic(auto)]

ghost use Rattle.std.specs.Prelude.{◌≡◌};
ghost use Rattle.laws.specs.Texts.{same_bytes};
ghost use Rattle.fields.specs.Field.{fields, front};
ghost use Rattle.equality.specs.Equality.{strip, same_text, expr_eq, parts_eq, same_tag};
ghost use Rattle.equality.specs.Amount.{amount_of};

use fields::bytes::same_bytes;
use fields::front::{after_front, front_content, front_tag, is_whole, parts_of, tag_of, text_of};
use fields::row::fields_at;
use tags::{CALLER, IDENTIFIER, INTEGER, MEMBER, NAME, NOW, STRING, is_composite};

// Whether two integers are the same text without their underscores.
fn same_integers(a: &[u8], b: &[u8]) -> bool
    ensures { result ≡ same_bytes (strip a.now) (strip b.now) }
{
    a.iter()
        .filter(|c| **c != b'_')
        .eq(b.iter().filter(|c| **c != b'_'))
}

// Whether two fields of one tag, which have no parts, have the same text.
#[tactic(auto, unfolding(crate::specs::Equality::same_text))]
fn same_text(tag: u8, a: &[u8], b: &[u8]) -> bool
    ensures { result ≡ same_text tag a.now b.now }
{
    match tag {
        NAME | STRING | IDENTIFIER => same_bytes(a, b),
        INTEGER => same_integers(a, b),
        CALLER | NOW => true,
        _ => false,
    }
}

// Whether whole fields of one tag stand at the fronts of a and b.
fn same_tag(a: &[u8], b: &[u8]) -> bool
    ensures { result ≡ same_tag a.now b.now }
{
    is_whole(a) && is_whole(b) && front_tag(a) == front_tag(b)
}

// Whether the expressions at the fronts of a and b are equal. A field inside a field is a call; the parts of a field are
// gone through by a loop, so that the stack grows with the nesting and not with the number of parts.
#[cycle(expr_eq_parts_eq)]
pub fn expr_eq(a: &[u8], b: &[u8]) -> bool
    ensures { result ≡ expr_eq (front a.now) (front b.now) }
{
    if !same_tag(a, b) {
        return false;
    }
    let tag = front_tag(a);
    if is_composite(tag) {
        return parts_eq(front_content(a), front_content(b));
    }
    same_text(tag, front_content(a), front_content(b))
}

// Whether a and b hold as many fields, each equal to its counterpart.
#[cycle(expr_eq_parts_eq)]
fn parts_eq(a: &[u8], b: &[u8]) -> bool
    ensures { result ≡ parts_eq (fields a.now) (fields b.now) }
{
    let mut others = fields_at(b, 0);
    for part in fields_at(a, 0) {
        let Some(other) = others.next() else {
            return false;
        };
        if !expr_eq(part.part, other.part) {
            return false;
        }
    }
    others.next().is_none()
}

// Whether the expression at the front of s equals the `p.amount` of the parameter of that name. No such expression need
// stand in the file, so it is known by the name only: a member whose parts are exactly that identifier and `amount`.
pub fn is_amount_of(name: &[u8], s: &[u8]) -> bool
    ensures { result ≡ expr_eq (amount_of name.now) (front s.now) }
{
    if tag_of(s) != MEMBER {
        return false;
    }
    let base = parts_of(s);
    let member = after_front(base);
    (tag_of(base) == IDENTIFIER)
        & same_bytes(name, text_of(base))
        & (tag_of(member) == NAME)
        & same_bytes(b"amount", text_of(member))
        & !is_whole(after_front(member))
}
