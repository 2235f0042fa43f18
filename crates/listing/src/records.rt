// Records as they are read back from their bytes.
ghost use Rattle.std.specs.Prelude.{◌≡◌, drop};
ghost use Rattle.std.specs.Iterator.{YieldsFirstBy, item_count};
ghost use Rattle.verdict.specs.Outcomes.{IsOutcome};
ghost use Rattle.contract.specs.Reading.{front_number, outcome_in, first_in, second_in, size_of};
ghost use Rattle.listing.specs.Reading.{bytes_of, left};

use fields::bytes::{byte_at, skip};
use verdict::numbers::{Outcome, UnknownOutcome};

// A record: the bytes from its first one on.
#[derive(Clone, Copy)]
pub struct Record<'a> {
    pub bytes: &'a [u8],
}

// The first records of some bytes, as many as are left of them.
#[derive(Drop)]
pub struct Records<'a> {
    pub rest: &'a [u8],
    pub left: usize,
}

// The number in the first two bytes, most significant first.
fn front_number(s: &[u8]) -> u16
    ensures { result ≡ front_number s.now }
{
    u16::from_be_bytes([byte_at(s, 0), byte_at(s, 1)])
}

impl<'a> Record<'a> {
    // What the verdict is. No record that is written begins with a byte that is none.
    pub fn outcome(&self) -> Result<Outcome, UnknownOutcome>
        ensures { IsOutcome (outcome_in self.now.bytes.now) result }
    {
        Outcome::try_from(byte_at(self.bytes, 0))
    }

    // Its two numbers.
    pub fn first(&self) -> u16
        ensures { result ≡ first_in self.now.bytes.now }
    {
        front_number(skip(self.bytes, 1))
    }

    pub fn second(&self) -> u16
        ensures { result ≡ second_in self.now.bytes.now }
    {
        front_number(skip(self.bytes, 3))
    }

    // How many bytes the record takes: its numbers five, and the covers of an accepted entry three each.
    fn size(&self) -> usize
        ensures { result ≡ size_of self.now.bytes.now }
    {
        if let Ok(Outcome::Accepted) = self.outcome() {
            5 + 3 * usize::from(self.first())
        } else {
            5
        }
    }

    // Its covers, and what stands behind them.
    pub fn covers(&self) -> &'a [u8]
        ensures { result.now ≡ drop 5 self.now.bytes.now }
    {
        skip(self.bytes, 5)
    }
}

// The first records of some bytes. How many there are is no length of the bytes: a record has five or more.
pub fn first_records(bytes: &[u8], count: usize) -> Records
    ensures rest { result.rest.now ≡ bytes.now }
    ensures count { result.left ≡ count }
{
    Records {
        rest: bytes,
        left: count,
    }
}

impl<'a> Iterator for Records<'a> {
    type Item = Record<'a>;

    ghost next_gives = { YieldsFirstBy bytes_of left };

    ghost remaining = { item_count left };

    fn next(&mut self) -> Option<Record<'a>> {
        self.left = self.left.checked_sub(1)?;
        let record = Record { bytes: self.rest };
        self.rest = skip(self.rest, record.size());
        Some(record)
    }
}
