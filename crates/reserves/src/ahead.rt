// SPDX-License-Identifier: Apache-2.0 OR MIT
// The state fields of the guards ahead of one whose turn it is: they are listed by their numbers, and the tokens of
// those of which nothing is remembered yet are worked out together, since an entry is then gone through once for all of them.
ghost use Rattle.std.specs.Prelude.{◌≡◌, ◌≤◌, ◌<◌, ◌+◌, length, IfSome};
ghost use Rattle.fields.specs.Field.{front};
ghost use Rattle.reserves.specs.Reading.{file_of, Same};
ghost use Rattle.reserves.specs.Covers.{lowered_number, Ahead};

use super::reading::Reading;
use super::state::state_number;
use arrayvec::ArrayVec;
use fields::front::{after_front, part_of};
use fields::named::Named;
use fields::row::Field;
use fundings::facts::{Facts, STATE_FIELDS};
use guards::guarded::{first_guard, guarded_field};
use guards::lowering::is_lowered;
use reserve_tokens::reserve::FIELDS;

// The number of the state field of that name, if there is one and one of the lowerings of a table lowers it.
fn lowered_number(file: &[u8], name: &[u8], lowerings: &[Named]) -> Option<usize>
    ensures number { result ≡ lowered_number file.now lowerings.now name.now }
    ensures within { IfSome result (λ index. index < length file.now) }
{
    if !is_lowered(file, lowerings, name) {
        return None;
    }
    state_number(file, name)
}

// The numbers of the state fields of so many guards that bound the amount, from a given one on, and the first of those guards that
// are left.
pub fn list_ahead<'a, const ROOM: usize>(
    file: &[u8],
    guard: Field<'a>,
    amount: &[u8],
    lowerings: &[Named],
    most: usize,
) -> (ArrayVec<u16, ROOM>, Option<Field<'a>>)
    requires short { length file.now ≤ 32768 }
    requires some { 0 < most }
    requires room { most ≤ ROOM }
    ensures { Ahead file.now lowerings.now (front amount.now) guard.entry result.1 result.0.items }
{
    let mut numbers = ArrayVec::new();
    let mut ahead = Some(guard);
    for n in 0..most {
        let Some(next) = ahead else {
            return (numbers, None);
        };
        let name = guarded_field(part_of(next.part, 0));
        if let Some(index) = lowered_number(file, name, lowerings) {
            // Below 32,768: `try_from` would have to answer for what can't be.
            numbers.push(index as u16);
        }
        ahead = first_guard(after_front(next.part), amount);
    }
    (numbers, ahead)
}

// Notes the state field of a number, if nothing is remembered of it yet and it is not noted.
fn note_unknown(index: u16, facts: &Facts, unknown: &mut ArrayVec<u16, FIELDS>)
    ensures { length unknown.new.items ≤ length unknown.old.items + 1 }
{
    if STATE_FIELDS <= usize::from(index) {
        return;
    }
    if facts.remembered(usize::from(index)).is_some() {
        return;
    }
    if !unknown.is_full() & !unknown.contains(&index) {
        unknown.push(index);
    }
}

impl<'a, 't> Reading<'a, 't> {
    // Works out and remembers the tokens of the state fields of these numbers of which nothing is remembered yet.
    pub fn work_out_unknown(&mut self, numbers: &[u16])
        ensures same { Same self.old self.new }
    {
        let mut unknown = ArrayVec::new();
        for &number in numbers {
            note_unknown(number, self.facts, &mut unknown);
        }
        self.work_out_each(unknown.as_slice());
    }
}

// Twice as many, as far as a list has room for them.
pub fn doubled(most: usize) -> usize
    requires { 0 < most }
    ensures some { 0 < result }
    ensures few { result ≤ 64 }
{
    most.saturating_mul(2).min(FIELDS)
}
