// SPDX-License-Identifier: Apache-2.0 OR MIT
// The token that the guards of an entry's body name. Clauses play no part.
ghost use Rattle.std.specs.Prelude.{◌≡◌};
ghost use Rattle.walking.specs.Table.{placed_at};
ghost use Rattle.reserve_tokens.specs.Numbers.{guard_number, guard_numbers, only_number};

use fields::bytes::skip;
use fields::front::{is_whole, parts_of, tag_of};
use fields::row::fields_at;
use tags::{EQ, GUARD};
use tokens::naming::beside_in_asset;
use tokens::number::join;
use walking::peel::peel;

// The number of the token of the guard at a place of the file, where its expression is as a whole, peeled, Eq of in-asset and
// an identifier; else 0. The expression stands behind the guard's three-byte head.
fn guard_number(file: &[u8], at: usize) -> usize
    ensures { result ≡ guard_number file.now (placed_at file.now at) }
{
    let guard = skip(file, at);
    if !is_whole(parts_of(guard)) {
        return 0;
    }
    let condition = peel(skip(guard, 3));
    if tag_of(condition) != EQ {
        return 0;
    }
    if beside_in_asset(condition).len() == 0 {
        return 0;
    }
    file.len() - condition.len() + 2
}

// The number of the token that exactly one guard of the entry at a place names; 0 where none does, or a second.
pub fn only_guard_number(file: &[u8], place: usize) -> usize
    ensures { result ≡ only_number (guard_numbers file.now (placed_at file.now place)) }
{
    let Some(entry) = fields_at(skip(file, place), place).next() else {
        return 0;
    };
    let mut found = 0;
    for part in entry.parts() {
        if part.tag() != GUARD {
            continue;
        }
        let number = guard_number(file, part.place);
        if (found != 0) & (number != 0) {
            return 0;
        }
        found = join(file, found, number);
    }
    found
}
