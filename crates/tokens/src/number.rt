// SPDX-License-Identifier: Apache-2.0 OR MIT
// A set of tokens as one number, and the set that an entry names. It is a number and no enum, since two sets are mostly compared by
// it, and two bytes of it are remembered of each of 2,979 state fields.
ghost use Rattle.std.specs.Prelude.{◌≡◌, ◌*◌, ◌≤◌, ◌<◌, length, take, drop};
ghost use Rattle.laws.specs.Texts.{same_bytes};
ghost use Rattle.walking.specs.Table.{placed_at};
ghost use Rattle.conditions.specs.Table.{condition_at};
ghost use Rattle.tokens.specs.Numbers.{token_of, joined, condition_number, joined_from, tokens_number};
ghost use Rattle.tokens.specs.Place.{token_place};

use super::entry::EntryPlace;
use super::naming::{beside_in_asset, token_at};
use conditions::list::list_conditions;
use fields::bytes::{same_bytes, skip};
use fields::front::parts_of;
use fields::row::fields_at;
use tags::{DENIES, GUARD, LIMITS, is_between};

// The one token of a set; no bytes where it is empty or has two that differ.
pub fn token_of(file: &[u8], number: usize) -> &[u8]
    ensures reads { result.now ≡ token_of file.now number }
    ensures shows { result.now ≡ take (length result.now) (drop (token_place file.now number) file.now) }
{
    if number < 2 {
        // No bytes, as in the rules' definition: no token is the empty part.
        return &file[..0];
    }
    beside_in_asset(skip(file, number - 2))
}

// Whether two sets have the same token.
fn same_token(file: &[u8], a: usize, b: usize) -> bool
    ensures { result ≡ same_bytes (token_of file.now a) (token_of file.now b) }
{
    same_bytes(token_of(file, a), token_of(file, b))
}

// Two sets together.
pub fn join(file: &[u8], a: usize, b: usize) -> usize
    ensures { result ≡ joined file.now a b }
{
    if b == 0 {
        return a;
    }
    if a == 0 {
        return b;
    }
    if a == b {
        return a;
    }
    if same_token(file, a, b) {
        return a;
    }
    1
}

// The set that a condition names, whose mark in the table of conditions is given, of the entry that stands at a place.
pub fn condition_number(entry: &[u8], place: usize, mark: usize) -> usize
    requires { place ≤ 32768 }
    ensures { result ≡ condition_number place (condition_at entry.now mark) }
{
    if token_at(entry, mark).len() == 0 {
        return 0;
    }
    place + mark % 32768 + 2
}

// The set found before, with what the conditions of an entry name, of those clauses or guards whose tags are from low to high.
// Condition by condition, and in each part by part, the search ends where two tokens differ. The table is no field of the entry's
// place: it is lent on to list_conditions, which takes any, so a struct of both would only be taken apart, and the clause is
// plainer.
fn joined_from(entry: &EntryPlace, low: u8, high: u8, before: usize, table: &mut [u16]) -> usize
    requires { length entry.now.file.now ≤ 3 * length table.old }
    ensures { result ≡ joined_from entry.now.file.now low high (placed_at entry.now.file.now entry.now.place) before }
{
    let this = entry.part();
    let mut found = before;
    'search: for part in fields_at(parts_of(this), 3) {
        if !is_between(low, high, part.tag()) {
            continue;
        }
        let conditions = list_conditions(part, table);
        for &mark in conditions.listed() {
            let named = condition_number(this, entry.place, usize::from(mark));
            found = join(entry.file, found, named);
            if found == 1 {
                break 'search;
            }
        }
    }
    found
}

// The set of tokens that an entry names: what its clauses name, and then its guards. The lent table has a number for each three
// bytes of the file, and serves for the parts of a condition.
pub fn tokens_number(entry: &EntryPlace, table: &mut [u16]) -> usize
    requires { length entry.now.file.now ≤ 3 * length table.old }
    ensures reads { result ≡ tokens_number entry.now.file.now (placed_at entry.now.file.now entry.now.place) }
    ensures small { result < 65536 }
{
    let named = joined_from(entry, LIMITS, DENIES, 0, table);
    if named == 1 {
        return 1;
    }
    joined_from(entry, GUARD, GUARD, named, table)
}
