// SPDX-License-Identifier: Apache-2.0 OR MIT
// A file that passes question 1 as it is gone through, entry by entry.
ghost use Rattle.std.specs.Prelude.{◌*◌, ◌≤◌, length};
ghost use Rattle.reserves.specs.Holding.{FactsOf};

use fundings::facts::Facts;

// The facts of the file, of which what is remembered of each state field is right, and a scratch table with a number for each three
// bytes of the file, which serves for one thing after the other.
#[derive(Drop)]
pub struct Reading<'a, 't> {
    pub facts: &'t mut Facts<'a>,
    pub scratch: &'t mut [u16],
    ghost room: { length facts.now.file.now ≤ 3 * length scratch.now },
    ghost right: { FactsOf facts.now },
}

impl<'a, 't> Reading<'a, 't> {
    ghost use Rattle.std.specs.Prelude.{◌≡◌};
    ghost use Rattle.reserves.specs.Reading.{file_of, Same};

    // Of facts of which nothing is remembered yet, or what is right, and a table that has room.
    pub fn new(facts: &'t mut Facts<'a>, scratch: &'t mut [u16]) -> Reading<'a, 't>
        requires room { length facts.old.file.now ≤ 3 * length scratch.old }
        requires right { FactsOf facts.old }
        ensures same_facts { result.facts.ghost_name ≡ facts.entry.ghost_name }
        ensures same_scratch { result.scratch.ghost_name ≡ scratch.entry.ghost_name }
        ensures long { length result.scratch.now ≡ length scratch.old }
        ensures same_file { file_of result ≡ facts.old.file.now }
    {
        Reading { facts, scratch }
    }

    // Lists the maps that some call of the file funds, where they are not listed yet.
    pub fn list_facts(&mut self)
        ensures same { Same self.old self.new }
    {
        self.facts.list_facts(self.scratch);
    }
}
