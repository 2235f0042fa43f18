// SPDX-License-Identifier: Apache-2.0 OR MIT
// The token that a state field holds: all raises of it, in all entries, have one token. It is known by its number, so that it can
// be remembered for the whole file.
ghost use Rattle.std.specs.Prelude.{◌≡◌, ◌*◌, ◌≤◌, ◌<◌, length, take, drop};
ghost use Rattle.fields.specs.Field.{fields};
ghost use Rattle.walking.specs.Table.{placed_at};
ghost use Rattle.tokens.specs.Place.{token_place};
ghost use Rattle.reserve_tokens.specs.ReserveTokens.{reserve_token};
ghost use Rattle.reserve_tokens.specs.Numbers.{numbers_in, reserve_number};
ghost use Rattle.reserve_tokens.specs.Agreeing.{Agreed, Agreeing, AllAgree};
ghost use Rattle.reserve_tokens.specs.Each.{EachAgreed, EachAgreeing, EachAllAgree, EachNumber};

use super::guard::only_guard_number;
use super::raise::{Raising, is_barred};
use fields::bytes::skip;
use fields::front::parts_of;
use fields::named::Named;
use fields::row::fields_at;
use fundings::facts::Facts;
use model::name_of;
use raises::raise::{has_raise, is_raise, raised_by};
use raises::zero::starts_at_zero;
use tags::{ADD_TO, CALL, ENTRY, SET, is_between};
use tokens::number::token_of;
use walking::parameters::{MOST_ASSETS, list_assets};
use walking::walk::list_body;

// How many state fields are gone through at once.
pub const FIELDS: usize = 64;

// What the raises of the state field of that name in an entry agree on with those before: the number of their token, 1 before the
// first raise and 0 where one bars the field. Both are no token's number, and a table of two bytes for each field holds what they
// agree on.
fn after_raises(entry: &Raising, name: &[u8], before: usize) -> usize
    requires { Agreed entry.now.facts.now.file.now before }
    ensures { Agreeing entry.now.facts.now.file.now before (numbers_in entry.now.facts.now.file.now name.now (placed_at entry.now.facts.now.file.now entry.now.place)) result }
{
    if before == 0 {
        return 0;
    }
    let file = entry.facts.file;
    let mut agreed = before;
    let statements = fields_at(parts_of(skip(file, entry.place)), 0);
    for raise in statements.filter(|statement| is_raise(name, statement.part)) {
        let amount = raised_by(name, raise.part);
        let number = entry.raise_number(amount);
        if is_barred(file, agreed, number) {
            return 0;
        }
        agreed = number;
    }
    agreed
}

// What is the same for all raises of the entry at a place of the file. A scratch table serves for the places of its calls, and
// another for its asset parameters. The facts and the tables are no struct: list_body and list_assets take a table alone, for as
// long as what is listed in it lives, so a struct would be taken apart here and made anew for each entry, and the clause is
// plainer.
fn list_raising<'a>(
    facts: &'a Facts<'a>,
    place: usize,
    assets: &'a mut [Named],
    scratch: &'a mut [u16],
) -> Raising<'a>
    requires { length facts.now.file.now ≤ 3 * length scratch.old }
    ensures facts { result.facts ≡ facts.entry }
    ensures place { result.place ≡ place }
{
    Raising {
        facts: facts,
        place: place,
        guard: only_guard_number(facts.file, place),
        calls: list_body(facts.file, place, CALL, scratch).into_view(),
        assets: list_assets(skip(facts.file, place), assets).into_view(),
    }
}

// What raises agree on with those of the entry at a place of the file. The scratch table has a number for each three bytes of the
// file.
fn after_entry(
    facts: &Facts,
    place: usize,
    name: &[u8],
    before: usize,
    assets: &mut [Named],
    scratch: &mut [u16],
) -> usize
    requires before { Agreed facts.now.file.now before }
    requires room { length facts.now.file.now ≤ 3 * length scratch.old }
    ensures { Agreeing facts.now.file.now before (numbers_in facts.now.file.now name.now (placed_at facts.now.file.now place)) result }
{
    if !has_raise(skip(facts.file, place), name) {
        return before;
    }
    let entry = list_raising(facts, place, assets, scratch);
    after_raises(&entry, name, before)
}

// The number of the one token of all raises; 1 where there is no raise, and 0 where one bars the field.
fn raises_number(facts: &Facts, name: &[u8], scratch: &mut [u16]) -> usize
    requires { length facts.now.file.now ≤ 3 * length scratch.old }
    ensures { AllAgree facts.now.file.now name.now result }
{
    let mut agreed = 1;
    let mut assets = [Named::default(); MOST_ASSETS];
    for field in fields_at(facts.file, 0) {
        if field.tag() != ENTRY {
            continue;
        }
        agreed = after_entry(facts, field.place, name, agreed, &mut assets, scratch);
        if agreed == 0 {
            return 0;
        }
    }
    agreed
}

// The number of the token that the state field of that name holds, by what all its raises agree on: it starts at zero, and they
// agree on one token; else 1. Most fields of a file with many have no raise, and then the start is not asked.
fn started(file: &[u8], name: &[u8], agreed: usize) -> usize
    requires { AllAgree file.now name.now agreed }
    ensures { result ≡ reserve_number file.now name.now }
{
    if agreed < 2 {
        return 1;
    }
    if !starts_at_zero(file, name) {
        return 1;
    }
    agreed
}

// The same, by all entries. It means the same for the whole file. A name and the table stand side by side in three functions that
// call one another, and a struct of both would be made for that one call.
pub fn reserve_number(facts: &Facts, name: &[u8], scratch: &mut [u16]) -> usize
    requires { length facts.now.file.now ≤ 3 * length scratch.old }
    ensures reads { result ≡ reserve_number facts.now.file.now name.now }
    ensures some { 0 < result }
    ensures small { result < 65536 }
{
    started(facts.file, name, raises_number(facts, name, scratch))
}

// What the raises of each state field at the places of a table agree on with those of an entry, beside what they agreed on before.
// The places and the numbers are no struct: the places are the caller's and stay, and the numbers are what is handed out.
fn after_raises_of_each(entry: &Raising, places: &[u16], numbers: &mut [u16])
    requires { EachAgreed entry.now.facts.now.file.now places.now numbers.old }
    ensures { EachAgreeing entry.now.facts.now.file.now places.now numbers.old (placed_at entry.now.facts.now.file.now entry.now.place) numbers.new }
{
    let file = entry.facts.file;
    // By an index, which joins the two tables: what is written through an adapter of both nothing is known of.
    for j in 0..places.len() {
        let name = name_of(skip(file, usize::from(places[j])));
        let before = usize::from(numbers[j]);
        // What raises agree on is small: try_from would have to answer for what can't be.
        numbers[j] = after_raises(entry, name, before) as u16;
    }
}

// The same of the entry at a place of the file. One that sets and adds to nothing raises no field.
fn after_entry_of_each(
    facts: &Facts,
    place: usize,
    places: &[u16],
    numbers: &mut [u16],
    assets: &mut [Named],
    scratch: &mut [u16],
)
    requires before { EachAgreed facts.now.file.now places.now numbers.old }
    requires room { length facts.now.file.now ≤ 3 * length scratch.old }
    ensures { EachAgreeing facts.now.file.now places.now numbers.old (placed_at facts.now.file.now place) numbers.new }
{
    let mut statements = fields_at(parts_of(skip(facts.file, place)), 0);
    if statements.any(|statement| is_between(SET, ADD_TO, statement.tag())) {
        let entry = list_raising(facts, place, assets, scratch);
        after_raises_of_each(&entry, places, numbers);
    }
}

// What all raises of each agree on becomes the number of the token that it holds.
fn start_each(facts: &Facts, places: &[u16], numbers: &mut [u16])
    requires { EachAllAgree facts.now.file.now places.now numbers.old }
    ensures { EachNumber facts.now.file.now places.now numbers.new }
{
    // By an index as above; what is made of each is another number.
    for j in 0..places.len() {
        let name = name_of(skip(facts.file, usize::from(places[j])));
        // The number of a token of a short file is small: try_from would have to answer for what can't be.
        numbers[j] = started(facts.file, name, usize::from(numbers[j])) as u16;
    }
}

// The numbers of the tokens that the state fields at the places of a table hold: each entry is gone through once for all of them.
pub fn reserve_numbers(facts: &Facts, places: &[u16], scratch: &mut [u16]) -> [u16; FIELDS]
    requires few { length places.now ≤ 64 }
    requires room { length facts.now.file.now ≤ 3 * length scratch.old }
    ensures { EachNumber facts.now.file.now places.now result }
{
    let mut numbers = [1u16; FIELDS];
    let mut assets = [Named::default(); MOST_ASSETS];
    for field in fields_at(facts.file, 0) {
        if field.tag() != ENTRY {
            continue;
        }
        after_entry_of_each(
            facts,
            field.place,
            places,
            &mut numbers,
            &mut assets,
            scratch,
        );
    }
    start_each(facts, places, &mut numbers);
    numbers
}

// The token itself; no bytes where the field holds none.
pub fn reserve_token<'a>(facts: &Facts<'a>, name: &[u8], scratch: &mut [u16]) -> &'a [u8]
    requires { length facts.now.file.now ≤ 3 * length scratch.old }
    ensures reads { result.now ≡ reserve_token (fields facts.now.file.now) name.now }
    ensures shows { result.now ≡ take (length result.now) (drop (token_place facts.now.file.now (reserve_number facts.now.file.now name.now)) facts.now.file.now) }
{
    token_of(facts.file, reserve_number(facts, name, scratch))
}
