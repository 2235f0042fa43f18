// SPDX-License-Identifier: Apache-2.0 OR MIT
// State fields by their names and by their numbers among all.
ghost use Rattle.std.specs.Prelude.{◌≡◌, ◌≤◌, ◌<◌, length, drop, IfSome};
ghost use Rattle.fields.specs.Field.{fields, front};
ghost use Rattle.model.specs.Model.{name_of};
ghost use Rattle.reserves.specs.States.{state_name, state_number};

use fields::row::fields_at;
use model::{is_named, name_of, nth_state};
use tags::STATE;

// The name of the state field of that number; no bytes where there is none. It matches on what is found, as does the next: by
// `map_or` each proof is longer, since it has to go through the closure's contract.
pub fn state_name(file: &[u8], index: usize) -> &[u8]
    ensures { result.now ≡ state_name file.now index }
{
    match nth_state(file, index) {
        Some(field) => name_of(field.part),
        // What the rules' definition has for a number past the last.
        None => &file[..0],
    }
}

// The place of the state field of that number; the end of the file where there is none.
pub fn state_place(file: &[u8], index: usize) -> usize
    ensures named { name_of (front (drop result file.now)) ≡ state_name file.now index }
    ensures within { result ≤ length file.now }
{
    match nth_state(file, index) {
        Some(field) => field.place,
        None => file.len(),
    }
}

// The number of the first state field of that name, if one has it.
pub fn state_number(file: &[u8], name: &[u8]) -> Option<usize>
    ensures counted { result ≡ state_number (fields file.now) name.now }
    ensures within { IfSome result (λ index. index < length file.now) }
{
    fields_at(file, 0)
        .filter(|field| field.tag() == STATE)
        .position(|field| is_named(field.part, name))
}
