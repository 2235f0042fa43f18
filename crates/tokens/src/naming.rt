// SPDX-License-Identifier: Apache-2.0 OR MIT
// The token that a condition names.
ghost use Rattle.std.specs.Prelude.{◌≡◌};
ghost use Rattle.fields.specs.Field.{front};
ghost use Rattle.tokens.specs.Tokens.{beside_in_asset};
ghost use Rattle.tokens.specs.Numbers.{token_at};

use conditions::operator::operator_of;
use fields::bytes::skip;
use fields::front::{part_of, tag_of};
use tags::{EQ, IN_ASSET};
use walking::peel::peel;
use walking::shape::ident;

// The identifier beside in-asset, on either side of the field at the front of s, sides peeled; no bytes where there is none.
pub fn beside_in_asset(s: &[u8]) -> &[u8]
    ensures { result.now ≡ beside_in_asset (front s.now) }
{
    let left = peel(part_of(s, 0));
    let right = peel(part_of(s, 1));
    if tag_of(left) == IN_ASSET {
        return ident(right);
    }
    if tag_of(right) == IN_ASSET {
        return ident(left);
    }
    // No bytes stand for no identifier, as in the rules' definition: no name is empty.
    &s[..0]
}

// The token that the condition of the entry names which a number of the table of conditions stands for: the place of its
// expression, with 32,768 more if it is flipped. The expression is itself, unpeeled and after any flipping, Eq.
pub fn token_at(entry: &[u8], number: usize) -> &[u8]
    ensures { result.now ≡ token_at entry.now number }
{
    let s = skip(entry, number % 32768);
    if operator_of(tag_of(s), 32768 <= number) != EQ {
        // No bytes, as in the rules' definition: no token is the empty part.
        return &entry[..0];
    }
    beside_in_asset(s)
}
