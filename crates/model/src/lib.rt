// The model that a file carries: state fields by their names, and all by numbers, counted from 0 in file order. An answer is a
// field with its place: of the file, or of the entry's parts counted from the entry's own place. What is read stands beside the
// name or the number that is looked for in it: callers have the two from different places.
#![tactic(auto)]

ghost use Rattle.std.specs.Prelude.{◌≡◌, ◌+◌, IfSome, filter, get_or, length};
ghost use Rattle.std.specs.Option.{option_map};
ghost use Rattle.std.specs.List.{slice_get};
ghost use Rattle.laws.specs.Lists.{any};
ghost use Rattle.laws.specs.Texts.{same_bytes};
ghost use Rattle.tags.specs.Tag.{between, Genesis, Parameter, Limits, Denies, Guard, ExpressionStatement};
ghost use Rattle.fields.specs.Field.{fields, front, tag, parts, nothing, placed_from};
ghost use Rattle.fields.specs.Row.{shown, left, reach, end_of};
ghost use Rattle.model.specs.Model.{name_of, state_names, states, genesis, entries, params, clauses, body};
ghost use Rattle.model.specs.Shown.{this_of, or_nothing};

use fields::bytes::same_in_steps;
use fields::front::{part_of, parts_of, text_of};
use fields::row::{Field, Fields, fields_at};
use tags::{
    DENIES, ENTRY, EXPRESSION_STATEMENT, GENESIS, GUARD, LIMITS, PARAMETER, STATE, is_between,
};

// The name of the state field, entry or parameter at the front of s.
pub fn name_of(s: &[u8]) -> &[u8]
    ensures { result.now ≡ name_of (front s.now) }
{
    text_of(part_of(s, 0))
}

// Whether the state field, entry or parameter at the front of s has this name. It would stand behind two heads, and most fields
// have another there: that takes less time than to read the name. It is asked of each field, and so it is compiled into the loops.
#[inline(always)]
pub fn is_named(s: &[u8], name: &[u8]) -> bool
    ensures { result ≡ same_bytes name.now (name_of (front s.now)) }
{
    if let Some(there) = s.get(6..6 + name.len()) {
        if !same_in_steps(name, there) {
            return false;
        }
    }
    same_in_steps(name, name_of(s))
}

// Whether a state field of s has this name. It reads like the two searches of raises (zero.rt), of other tags and with other tests.
pub fn has_state(s: &[u8], name: &[u8]) -> bool
    ensures { result ≡ any (same_bytes name.now) (state_names (fields s.now)) }
{
    fields_at(s, 0)
        .filter(|field| field.tag() == STATE)
        .any(|field| is_named(field.part, name))
}

// The n-th of a row's fields whose tags are from low to high: two numbers as in is_between, which is the rules' own test of a tag.
fn nth_from(row: Fields, low: u8, high: u8, n: usize) -> Option<Field>
    ensures found { option_map shown result ≡ slice_get (filter (λ p. between low high (tag p.this)) (left row.entry)) n }
    ensures reach { IfSome result (λ p. reach p ≡ end_of row.entry) }
{
    row.filter(|field| is_between(low, high, field.tag()))
        .nth(n)
}

// The n-th state field of the file.
pub fn nth_state(file: &[u8], n: usize) -> Option<Field>
    ensures found { option_map shown result ≡ slice_get (states (fields file.now)) n }
    ensures reach { IfSome result (λ p. reach p ≡ length file.now) }
{
    nth_from(fields_at(file, 0), STATE, STATE, n)
}

// The n-th entry of the file.
pub fn nth_entry(file: &[u8], n: usize) -> Option<Field>
    ensures found { option_map shown result ≡ slice_get (entries (fields file.now)) n }
    ensures reach { IfSome result (λ p. reach p ≡ length file.now) }
{
    nth_from(fields_at(file, 0), ENTRY, ENTRY, n)
}

// Its n-th genesis statement, if that is there.
pub fn nth_genesis(file: &[u8], n: usize) -> Option<Field>
    ensures reads { or_nothing result ≡ get_or (genesis (fields file.now)) n nothing }
    ensures place { IfSome result (λ p. IfSome (slice_get (placed_from Genesis Genesis 0 (fields file.now)) n) (λ g. p.place ≡ g.place + 3)) }
{
    nth_from(fields_at(file, 0), GENESIS, GENESIS, n)?
        .parts()
        .next()
}

// The n-th parameter of the entry at the front of s.
pub fn nth_parameter(s: &[u8], n: usize) -> Option<Field>
    ensures reads { option_map this_of result ≡ slice_get (params (front s.now)) n }
    ensures placed { option_map shown result ≡ slice_get (placed_from Parameter Parameter 3 (parts (front s.now))) n }
{
    nth_from(fields_at(parts_of(s), 3), PARAMETER, PARAMETER, n)
}

// Its n-th clause.
pub fn nth_clause(s: &[u8], n: usize) -> Option<Field>
    ensures reads { option_map this_of result ≡ slice_get (clauses (front s.now)) n }
    ensures placed { option_map shown result ≡ slice_get (placed_from Limits Denies 3 (parts (front s.now))) n }
{
    nth_from(fields_at(parts_of(s), 3), LIMITS, DENIES, n)
}

// Its n-th body statement.
pub fn nth_statement(s: &[u8], n: usize) -> Option<Field>
    ensures reads { option_map this_of result ≡ slice_get (body (front s.now)) n }
    ensures placed { option_map shown result ≡ slice_get (placed_from Guard ExpressionStatement 3 (parts (front s.now))) n }
{
    nth_from(fields_at(parts_of(s), 3), GUARD, EXPRESSION_STATEMENT, n)
}
