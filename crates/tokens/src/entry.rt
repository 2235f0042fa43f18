// SPDX-License-Identifier: Apache-2.0 OR MIT
// Where an entry stands in a file that passes question 1.
ghost use Rattle.std.specs.Prelude.{◌≡◌, ◌≤◌, length, drop};

use fields::bytes::skip;

// The file, and the entry's place in it.
#[derive(Clone, Copy)]
pub struct EntryPlace<'a> {
    pub file: &'a [u8],
    pub place: usize,
    ghost short: { length file.now ≤ 32768 },
    ghost within: { place ≤ length file.now },
}

// The entry at a place of the file. What makes one has to ask what its type says.
pub fn entry_at(file: &[u8], place: usize) -> EntryPlace
    requires short { length file.now ≤ 32768 }
    requires within { place ≤ length file.now }
    ensures file { result.file ≡ file.entry }
    ensures place { result.place ≡ place }
{
    EntryPlace {
        file: file,
        place: place,
    }
}

impl<'a> EntryPlace<'a> {
    // The part of the file that starts with the entry.
    pub fn part(&self) -> &'a [u8]
        ensures { result.now ≡ drop self.now.place self.now.file.now }
    {
        skip(self.file, self.place)
    }
}
