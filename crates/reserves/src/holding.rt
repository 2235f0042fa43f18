// SPDX-License-Identifier: Apache-2.0 OR MIT
// Whether a state field holds a token that is asked for. A field's token is worked out once for all entries of a file and then
// remembered by its number; 1 where the field holds none.
ghost use Rattle.std.specs.Prelude.{◌≡◌, ◌≤◌, length, take, drop};
ghost use Rattle.tokens.specs.Place.{token_place};
ghost use Rattle.fields.specs.Field.{fields};
ghost use Rattle.reserve_tokens.specs.ReserveTokens.{reserve_token};
ghost use Rattle.reserve_tokens.specs.Numbers.{reserve_number};
ghost use Rattle.reserves.specs.States.{state_name};
ghost use Rattle.reserves.specs.Holding.{is_token, holds_token, Placing, Numbered};
ghost use Rattle.reserves.specs.Reading.{file_of, Same};

use super::reading::Reading;
use super::state::{state_name, state_place};
use fields::bytes::same_bytes;
use reserve_tokens::reserve::{FIELDS, reserve_number, reserve_numbers};
use tokens::number::token_of;

// Whether u is a known token and t.
#[tactic(auto, unfolding(crate::specs::Holding::is_token, laws::specs::Texts::known))]
fn is_token(t: &[u8], u: &[u8]) -> bool
    ensures { result ≡ is_token t.now u.now }
{
    !u.is_empty() && same_bytes(t, u)
}

// Lists the places of the state fields of these numbers.
fn list_places(file: &[u8], indices: &[u16], places: &mut [u16])
    requires short { length file.now ≤ 32768 }
    requires room { length indices.now ≤ length places.old }
    ensures { Placing file.now indices.now places.new }
{
    // By an index, which joins the two tables: what is written through an adapter of both nothing is known of.
    for j in 0..indices.len() {
        // At most 32,768: `try_from` would have to answer for what can't be.
        places[j] = state_place(file, usize::from(indices[j])) as u16;
    }
}

impl<'a, 't> Reading<'a, 't> {
    // The number of the token that the state field of that number holds, worked out and remembered.
    fn work_out(&mut self, index: usize) -> usize
        ensures same { Same self.old self.new }
        ensures number { result ≡ reserve_number (file_of self.old) (state_name (file_of self.old) index) }
    {
        let name = state_name(self.facts.file, index);
        let number = reserve_number(self.facts, name, self.scratch);
        // Below 65,536: `try_from` would have to answer for what can't be.
        self.facts.remember(index, number as u16);
        number
    }

    // The numbers of the tokens that the state fields of these numbers hold. Three tables stand side by side, each made whole of
    // the one before it: as one of a struct it would be half empty at each step. As many count as there are indices.
    fn numbers_of(&mut self, indices: &[u16]) -> [u16; FIELDS]
        requires few { length indices.now ≤ 64 }
        ensures same { Same self.old self.new }
        ensures numbered { Numbered (file_of self.old) indices.now result }
    {
        let mut places = [0u16; FIELDS];
        list_places(self.facts.file, indices, &mut places);
        reserve_numbers(self.facts, &places[..indices.len()], self.scratch)
    }

    // Works out the tokens of the state fields of these numbers together, and remembers them. One alone is worked out where it is
    // asked for: then only the entries that raise it are gone through.
    pub fn work_out_each(&mut self, indices: &[u16])
        requires few { length indices.now ≤ 64 }
        ensures same { Same self.old self.new }
    {
        if indices.len() < 2 {
            return;
        }
        let numbers = self.numbers_of(indices);
        for (&index, &number) in indices.iter().zip(&numbers) {
            self.facts.remember(usize::from(index), number);
        }
    }

    // The number of the token that the state field of that number holds, by what is remembered of the field where something is.
    fn held_number(&mut self, index: usize) -> usize
        ensures same { Same self.old self.new }
        ensures number { result ≡ reserve_number (file_of self.old) (state_name (file_of self.old) index) }
    {
        match self.facts.remembered(index) {
            Some(number) => usize::from(number),
            None => self.work_out(index),
        }
    }

    // The token that the state field of that number holds; no bytes where it holds none.
    fn held_token(&mut self, index: usize) -> &'a [u8]
        ensures same { Same self.old self.new }
        ensures reads { result.now ≡ reserve_token (fields (file_of self.old)) (state_name (file_of self.old) index) }
        ensures shows { result.now ≡ take (length result.now) (drop (token_place (file_of self.old) (reserve_number (file_of self.old) (state_name (file_of self.old) index))) (file_of self.old)) }
    {
        let file = self.facts.file;
        token_of(file, self.held_number(index))
    }

    // Whether the state field of that number holds a token.
    pub fn holds_token(&mut self, index: usize, token: &[u8]) -> bool
        ensures same { Same self.old self.new }
        ensures holds { result ≡ holds_token (file_of self.old) token.now index }
    {
        is_token(self.held_token(index), token)
    }
}
