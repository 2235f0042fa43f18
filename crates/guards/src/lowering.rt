// SPDX-License-Identifier: Apache-2.0 OR MIT
// The assignments that lower a state field by an amount: those of an entry are listed once for a payout, and each guard that bounds
// the amount is then compared with them by the name of its state field.
ghost use Rattle.std.specs.Prelude.{◌≡◌, ◌≤◌, ◌+◌, ◌^◌, ◌<◌, length};
ghost use Rattle.fields.specs.Field.{front};
ghost use Rattle.fields.specs.Lists.{Lists};
ghost use Rattle.fields.specs.Number.{short_number};
ghost use Rattle.fields.specs.Row.{shown};
ghost use Rattle.fields.specs.Table.{Listed};
ghost use Rattle.walking.specs.Table.{placed_at};
ghost use Rattle.guards.specs.Guards.{contains_wrapping, lowered_by};
ghost use Rattle.guards.specs.Lowerings.{target, is_lowering, lowering_at, lowering_numbers, lowers_at, lowered_in};

use equality::expr_eq;
use fields::bytes::{same_bytes, skip};
use fields::front::{part_of, tag_of};
use fields::named::Named;
use fields::number::short_number;
use fields::row::{Field, fields_at};
use fields::table::{Table, empty_table};
use raises::assignment::{sets_from, value_of};
use tags::{SUB, SUBTRACT_FROM, WRAPPING, is_assign};
use walking::peel::peel;
use walking::shape::ident;
use walking::walk::list_expression;

// Whether Wrapping stands somewhere in the expression at the front of s. The walk counts also what the table has no room
// for, so the table's one number serves.
pub fn contains_wrapping(s: &[u8]) -> bool
    ensures { result ≡ contains_wrapping (front s.now) }
{
    let mut table = [0u16; 1];
    1 <= list_expression(s, WRAPPING, &mut table).count
}

// What the statement at the front of s lowers the state field of that name by; no field where it does not, as the rules define it:
// no amount equals it.
#[tactic(auto, unfolding(crate::specs::Guards::lowered_by))]
pub fn lowered_by<'a>(name: &[u8], s: &'a [u8]) -> &'a [u8]
    ensures { front result.now ≡ lowered_by name.now (front s.now) }
{
    if tag_of(s) == SUBTRACT_FROM {
        return value_of(s);
    }
    if sets_from(SUB, name, s) {
        return peel(part_of(value_of(s), 1));
    }
    &s[..0]
}

// The name that the assignment at the front of s assigns to.
fn target(s: &[u8]) -> &[u8]
    ensures { result.now ≡ target (front s.now) }
{
    ident(part_of(s, 0))
}

// Whether the statement at the front of s lowers its own target by the amount. Most amounts differ at once, so Wrapping is looked
// for last.
#[tactic(auto, unfolding(crate::specs::Lowerings::is_lowering))]
fn is_lowering(amount: &[u8], s: &[u8]) -> bool
    ensures { result ≡ is_lowering (front amount.now) (front s.now) }
{
    if !is_assign(tag_of(s)) {
        return false;
    }
    if !expr_eq(lowered_by(target(s), s), amount) {
        return false;
    }
    !contains_wrapping(part_of(s, 1))
}

// Lists a field, by the number of its target's name, where it is a statement that lowers its target by the amount. (What lists
// asset parameters reads so, of another test and another name.)
#[tactic(auto, unfolding(crate::specs::Lowerings::lowering_at))]
fn list_lowering(amount: &[u8], field: &Field, lowerings: &mut Table<Named>)
    requires place { field.now.place < 65536 }
    requires room { lowerings.old.count + 1 < 2 ^ 64 }
    ensures { Lists (lowering_at (front amount.now) (shown field.now)) lowerings.old lowerings.new }
{
    if is_lowering(amount, field.part) {
        lowerings.note(Named {
            number: short_number(target(field.part)),
            // By `as`: the place is small by the contract, and try_from would have an error that cannot be.
            place: field.place as u16,
        });
    }
}

// Lists what in the entry at a place of the file lowers a state field by the amount. Any place of a short file will do.
pub fn list_lowerings<'t>(
    file: &[u8],
    place: usize,
    amount: &[u8],
    table: &'t mut [Named],
) -> Table<'t, Named>
    requires { length file.now ≤ 32768 }
    ensures same_reference { result.items.ghost_name ≡ table.entry.ghost_name }
    ensures listed { Listed (lowering_numbers (front amount.now) (placed_at file.now place)) table.old 0 result.items.now result.count }
{
    let mut lowerings = empty_table(table);
    if let Some(entry) = fields_at(skip(file, place), place).next() {
        for part in entry.parts() {
            list_lowering(amount, &part, &mut lowerings);
        }
    }
    lowerings
}

// Whether what is listed assigns to the name, whose number is given. A name is read only where the number is equal (of other names
// listed so, see is_named of crates/walking).
#[tactic(auto, unfolding(crate::specs::Lowerings::lowers_at))]
fn has_target(file: &[u8], lowering: &Named, number: u16, name: &[u8]) -> bool
    requires { number ≡ short_number name.now }
    ensures { result ≡ lowers_at file.now name.now lowering.now }
{
    if lowering.number != number {
        return false;
    }
    same_bytes(target(skip(file, usize::from(lowering.place))), name)
}

// Whether one of some lowerings lowers the state field of that name.
pub fn is_lowered(file: &[u8], lowerings: &[Named], name: &[u8]) -> bool
    ensures { result ≡ lowered_in file.now name.now lowerings.now }
{
    let number = short_number(name);
    lowerings
        .iter()
        .any(|lowering| has_target(file, lowering, number, name))
}
