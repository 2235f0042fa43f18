// SPDX-License-Identifier: Apache-2.0 OR MIT
// The conditions of a clause or a guard, taken apart, in a table that the caller lends. An expression visits its list of
// parts, and the list, gone through by a loop, visits expressions: the stack grows with the nesting of a file and not with
// the length of its lists.
ghost use Rattle.std.specs.Prelude.{◌≡◌, ◌+◌, ◌*◌, ◌^◌, ◌<◌, cond, length};
ghost use Rattle.tags.specs.Tag.{Eq, Ge, between};
ghost use Rattle.fields.specs.Field.{fields, front};
ghost use Rattle.fields.specs.Row.{shown};
ghost use Rattle.fields.specs.Table.{Listed};
ghost use Rattle.fields.specs.Lists.{Lists};
ghost use Rattle.conditions.specs.Conditions.{split_and, split_each, split_first, negated, negated_each, conditions_of};
ghost use Rattle.conditions.specs.Table.{marks};

use fields::row::{Field, Fields};
use fields::table::{Table, empty_table};
use tags::{AND, DENIES, EQ, GE, NOT, OR};

// What a number of the table has more if its condition is flipped: the scratch table that serves for conditions serves for places,
// too. A file that passes question 1 has no place as large; of a longer one a place is written modulo this number, so that the
// listing asks nothing of its caller.
const FLIPPED: usize = 32768;

// Eq, Ne, Lt, Gt, Le, Ge
fn is_comparison(tag: u8) -> bool
    ensures { result ≡ between Eq Ge tag }
{
    matches!(tag, EQ..=GE)
}

// Lists what an expression gives where it is required. That the table's count stays a number of the code is a fact of the table and
// of what is still to be gone through, which is another field at each call: here and below each says it of its own.
#[cycle(split_negate)]
fn split(field: Field, conditions: &mut Table<u16>)
    requires { 3 * conditions.old.count + length field.part.now < 3 * 2 ^ 64 }
    ensures { Lists (marks (split_and field.entry.place (front field.entry.part.now))) conditions.old conditions.new }
{
    if field.tag() == AND {
        return list_each(field.parts(), false, conditions);
    }
    // By `as`, here and below: a remainder, of which try_from would have an error that cannot be.
    conditions.note((field.place % FLIPPED) as u16)
}

// The same of the first of some fields in a row.
#[cycle(split_negate)]
fn split_front(mut parts: Fields, conditions: &mut Table<u16>)
    requires { 3 * conditions.old.count + length parts.rest.now < 3 * 2 ^ 64 }
    ensures { Lists (marks (split_first parts.entry.place (fields parts.entry.rest.now))) conditions.old conditions.new }
{
    if let Some(field) = parts.next() {
        split(field, conditions);
    }
}

// What an expression gives where it is denied.
#[cycle(split_negate)]
fn negate(field: Field, conditions: &mut Table<u16>)
    requires { 3 * conditions.old.count + length field.part.now < 3 * 2 ^ 64 }
    ensures { Lists (marks (negated field.entry.place (front field.entry.part.now))) conditions.old conditions.new }
{
    let tag = field.tag();
    if tag == NOT {
        return split_front(field.parts(), conditions);
    }
    if tag == OR {
        return list_each(field.parts(), true, conditions);
    }
    if is_comparison(tag) {
        conditions.note((field.place % FLIPPED + FLIPPED) as u16);
    }
}

// What an expression gives where it is denied or required. The definitions choose by the same yes or no, which a clause's tag
// gives: an enum of two would say no more.
#[cycle(split_negate)]
fn list_one(field: Field, denied: bool, conditions: &mut Table<u16>)
    requires { 3 * conditions.old.count + length field.part.now < 3 * 2 ^ 64 }
    ensures { Lists (marks (cond denied (negated field.entry.place (front field.entry.part.now)) (split_and field.entry.place (front field.entry.part.now)))) conditions.old conditions.new }
{
    if denied {
        negate(field, conditions);
    } else {
        split(field, conditions);
    }
}

// The same of each of some fields in a row. It reads like the rows of crates/walking, of another recursion.
#[cycle(split_negate)]
fn list_each(parts: Fields, denied: bool, conditions: &mut Table<u16>)
    requires { 3 * conditions.old.count + length parts.rest.now < 3 * 2 ^ 64 }
    ensures { Lists (marks (cond denied (negated_each parts.entry.place (fields parts.entry.rest.now)) (split_each parts.entry.place (fields parts.entry.rest.now)))) conditions.old conditions.new }
{
    for part in parts {
        list_one(part, denied, conditions);
    }
}

// Lists the conditions of a clause or a guard, which stands at a place of its entry, as far as the table has room. A number is the
// place of the condition's expression, counted from the entry's own, with 32,768 more if the condition is flipped.
pub fn list_conditions<'t>(field: Field, table: &'t mut [u16]) -> Table<'t, u16>
    ensures same_reference { result.items.ghost_name ≡ table.entry.ghost_name }
    ensures listed { Listed (marks (conditions_of (shown field.entry))) table.old 0 result.items.now result.count }
{
    let mut conditions = empty_table(table);
    if let Some(expression) = field.parts().next() {
        list_one(expression, field.tag() == DENIES, &mut conditions);
    }
    conditions
}
