// SPDX-License-Identifier: Apache-2.0 OR MIT
// A file that passes question 1, with what is the same for all its entries and is worked out once.
ghost use Rattle.std.specs.Prelude.{◌≡◌, ◌≤◌, [], true, false, length, replicate};
ghost use Rattle.fundings.specs.Remembered.{not_yet, state_fields};
ghost use Rattle.fundings.specs.Fundings.{EachMap};

use super::ledger::{Fundings, list_fundings, number_of_map};
use super::token::ledger_funding_number;
use fields::bytes::keep;
use tokens::number::token_of;

// The most bytes of a file that question 1 allows.
const MOST_BYTES: usize = 32768;

// How many state fields something is remembered of: a file that passes question 1 has no more, since one takes 11 bytes at least.
pub const STATE_FIELDS: usize = 2979;

// What stands for a state field whose set of tokens is not worked out yet: no set has this number. An Option of two bytes takes
// four of the table for each, and one of a number that is not 0 could not hold each number that may be remembered.
const NOT_YET: u16 = 65535;

// The file, the maps that some call funds, if they are listed already, and the set of tokens of each state field, where it is
// worked out. An Option of the maps would be written twice more and is measurably slower, so a flag says whether they are listed.
#[derive(Drop)]
pub struct Facts<'a> {
    pub file: &'a [u8],
    pub listed: bool,
    pub maps: Fundings,
    pub held: [u16; STATE_FIELDS],
    ghost short: { length file.now ≤ 32768 },
    ghost funded: { listed ≡ true → EachMap file.now maps.items },
}

// The facts at the start, when nothing is worked out yet. A file that is longer than question 1 allows has none: they are then those
// of no bytes, so that this asks nothing of the file.
pub fn nothing_known(file: &[u8]) -> Facts
    ensures file { length file.now ≤ 32768 → result.file ≡ file.entry }
    ensures listed { result.listed ≡ false }
    ensures maps { result.maps.items ≡ [] }
    ensures held { result.held ≡ replicate state_fields not_yet }
{
    Facts {
        file: if file.len() <= MOST_BYTES {
            file
        } else {
            keep(file, 0)
        },
        listed: false,
        maps: Fundings::new(),
        held: [NOT_YET; STATE_FIELDS],
    }
}

impl<'a> Facts<'a> {
    ghost use Rattle.std.specs.Prelude.{◌*◌, ◌<◌, take, drop, slice_set};
    ghost use Rattle.fields.specs.Field.{fields};
    ghost use Rattle.tokens.specs.Place.{token_place};
    ghost use Rattle.fundings.specs.FundingTokens.{funding_token};
    ghost use Rattle.fundings.specs.Fundings.{funding_number};
    ghost use Rattle.fundings.specs.Funded.{Relisted, remembered_at};

    // The set of the tokens that fund the map. It is looked up among the listed maps, and where they are not listed yet, read from
    // the whole file.
    pub fn funding_number(&self, map: &[u8]) -> usize
        ensures reads { result ≡ funding_number self.now.file.now map.now }
        ensures small { result < 65536 }
    {
        if !self.listed {
            return ledger_funding_number(self.file, map);
        }
        number_of_map(self.file, map, self.maps.as_slice())
    }

    // The one token that funds the map; none where no entry that funds it names one, or two differ.
    pub fn funded_token(&self, map: &[u8]) -> &'a [u8]
        ensures reads { result.now ≡ funding_token (fields self.now.file.now) map.now }
        ensures shows { result.now ≡ take (length result.now) (drop (token_place self.now.file.now (funding_number self.now.file.now map.now)) self.now.file.now) }
    {
        token_of(self.file, self.funding_number(map))
    }

    // Lists the maps of the file that some call funds, where they are not listed yet. The scratch table has a number for each three
    // bytes of the file.
    pub fn list_facts(&mut self, scratch: &mut [u16])
        requires { length self.old.file.now ≤ 3 * length scratch.old }
        ensures { Relisted self.old self.new }
    {
        if self.listed {
            return;
        }
        self.listed = list_fundings(self.file, &mut self.maps, scratch).is_ok();
    }

    // What is remembered of the state field of that number.
    #[tactic(auto, unfolding(crate::specs::Funded::remembered_at))]
    pub fn remembered(&self, index: usize) -> Option<u16>
        ensures { result ≡ remembered_at self.now index }
    {
        let number = self.held.get(index).copied().unwrap_or(NOT_YET);
        if number == NOT_YET {
            return None;
        }
        Some(number)
    }

    // Remembers a number of it, where there is room for it.
    pub fn remember(&mut self, index: usize, number: u16)
        ensures { self.new ≡ record self.old { held = slice_set self.old.held index number } }
    {
        if index < self.held.len() {
            self.held[index] = number;
        }
    }
}
