// SPDX-License-Identifier: Apache-2.0 OR MIT
// The walk: the places of the expressions of one tag, in walk order, in a table that the caller lends. An expression
// visits its list of parts, and the list, gone through by a loop, visits expressions: the stack grows with the nesting
// of a file and not with the length of its lists.
ghost use Rattle.std.specs.Prelude.{◌≡◌, ◌+◌, ◌*◌, ◌^◌, ◌<◌, ◌%◌, cond, eqb, [], ◌∷◌, length};
ghost use mathlib.Core.List.{flat_map};
ghost use Rattle.fields.specs.Field.{fields, front, tag as tag_of, placed};
ghost use Rattle.fields.specs.Row.{shown};
ghost use Rattle.fields.specs.Table.{Listed};
ghost use Rattle.fields.specs.Lists.{Lists};
ghost use Rattle.walking.specs.Walking.{walk, walk_parts, stmt_exprs, body_exprs};
ghost use Rattle.walking.specs.Table.{placed_at, places_of};

use fields::bytes::skip;
use fields::row::{Field, Fields, fields_at};
use fields::table::{Table, empty_table};
use tags::{is_expression, is_statement};

// How many fields a file that passes question 1 has at most: 32,768 bytes by three, which a field takes at least. A table of so
// many numbers has room for the places of all its calls, or conditions, or whatever else is listed of one entry.
pub const MOST_FIELDS: usize = 10923;

// Notes the place of a field that has the tag. Two bytes hold every place of a file that passes question 1; of a longer one they
// hold the place modulo 65,536, so that the walk asks nothing of its caller.
fn note_place(field: &Field, tag: u8, places: &mut Table<u16>)
    requires { places.old.count + 1 < 2 ^ 64 }
    ensures { Lists (cond (eqb (tag_of (front field.now.part.now)) tag) (field.now.place % 65536 ∷ []) []) places.old places.new }
{
    if field.tag() == tag {
        // By `as`: a remainder of two bytes, of which try_from would have an error that cannot be.
        places.note((field.place % 65536) as u16);
    }
}

// Lists the expressions in a field, itself before its parts. Most have no parts, and then nothing is called. The tag stays and the
// table changes, here and below: a struct of both would have to say at each call that the tag is the same. It is compiled into the
// loop below, so that a level of nesting takes the stack of one call and not of two.
#[inline(always)]
#[cycle(visit_expression_visit_parts)]
fn visit_expression(field: Field, tag: u8, places: &mut Table<u16>)
    requires { 3 * places.old.count + length field.part.now < 3 * 2 ^ 64 }
    ensures { Lists (places_of tag (walk field.entry.place (front field.entry.part.now))) places.old places.new }
{
    if !is_expression(field.tag()) {
        return;
    }
    note_place(&field, tag, places);
    let parts = field.parts();
    if !parts.rest.is_empty() {
        visit_parts(parts.rest, parts.place, tag, places);
    }
}

// The same of the fields of s, which stands at a place. They come as a slice and a number, which are handed over without the stack: as
// a Fields each level of nesting took twice as much of it.
#[cycle(visit_expression_visit_parts)]
fn visit_parts(s: &[u8], place: usize, tag: u8, places: &mut Table<u16>)
    requires inside { place + length s.now < 2 ^ 64 }
    requires room { 3 * places.old.count + length s.now < 3 * 2 ^ 64 }
    ensures { Lists (places_of tag (walk_parts place (fields s.now))) places.old places.new }
{
    for part in fields_at(s, place) {
        visit_expression(part, tag, places);
    }
}

// The same of a statement; nothing of any other field.
fn visit_statement(field: Field, tag: u8, places: &mut Table<u16>)
    requires { 3 * places.old.count + length field.part.now < 3 * 2 ^ 64 }
    ensures { Lists (places_of tag (stmt_exprs (shown field.entry))) places.old places.new }
{
    if is_statement(field.tag()) {
        let parts = field.parts();
        visit_parts(parts.rest, parts.place, tag, places);
    }
}

// The same of the statements among fields in a row. It reads like visit_parts, which is within the recursion: one function of both
// would be handed what to do with each, and that would call it again.
fn visit_statements(parts: Fields, tag: u8, places: &mut Table<u16>)
    requires { 3 * places.old.count + length parts.rest.now < 3 * 2 ^ 64 }
    ensures { Lists (places_of tag (flat_map stmt_exprs (placed parts.entry.place (fields parts.entry.rest.now)))) places.old places.new }
{
    for part in parts {
        visit_statement(part, tag, places);
    }
}

// Lists the places, in s, of the expressions of a tag in the one at the front of s.
pub fn list_expression<'t>(s: &[u8], tag: u8, table: &'t mut [u16]) -> Table<'t, u16>
    ensures same_reference { result.items.ghost_name ≡ table.entry.ghost_name }
    ensures listed { Listed (places_of tag (walk 0 (front s.now))) table.old 0 result.items.now result.count }
{
    let mut places = empty_table(table);
    if let Some(field) = fields_at(s, 0).next() {
        visit_expression(field, tag, &mut places);
    }
    places
}

// Lists the places, in the file, of the expressions of a tag in the body of the entry that stands at a place of it. The file and
// the place stand side by side where any place will do; where it is an entry's in a short file, EntryPlace of crates/tokens says
// so.
pub fn list_body<'t>(file: &[u8], place: usize, tag: u8, table: &'t mut [u16]) -> Table<'t, u16>
    ensures same_reference { result.items.ghost_name ≡ table.entry.ghost_name }
    ensures listed { Listed (places_of tag (body_exprs (placed_at file.now place))) table.old 0 result.items.now result.count }
{
    let mut places = empty_table(table);
    if let Some(entry) = fields_at(skip(file, place), place).next() {
        visit_statements(entry.parts(), tag, &mut places);
    }
    places
}
