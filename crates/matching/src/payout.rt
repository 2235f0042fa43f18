// SPDX-License-Identifier: Apache-2.0 OR MIT
// A payout of an entry.
ghost use Rattle.std.specs.Prelude.{◌<◌};

use entries::entry::Entry;
use guards::payout::part_at;

// The k-th one.
#[derive(Clone, Copy)]
pub struct Payout<'a> {
    pub entry: &'a Entry,
    pub k: usize,
    ghost among: { k < entry.now.payouts },
}

impl<'a> Payout<'a> {
    ghost use Rattle.std.specs.Prelude.{◌≡◌, get_or, drop};

    // The part of the file that starts with it, by the places of the entry's payouts.
    pub fn part<'f>(&self, file: &'f [u8]) -> &'f [u8]
        ensures { result.now ≡ drop (get_or self.now.entry.now.paid self.now.k 0) file.now }
    {
        part_at(file, &self.entry.paid, self.k)
    }
}
