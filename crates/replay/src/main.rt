// SPDX-License-Identifier: Apache-2.0 OR MIT
// Computes the listing of each model file in a list of answers, and compares it with the one that stands there.
#![tactic(auto)]

ghost use Rattle.std.specs.Prelude.{◌<◌, IfSome};

use listing::lines::listing;
use std::io::{self, Read};

// A byte more than question 1 allows is room enough for a file.
const MOST_READ: usize = 32769;

// 65,536 bytes hold every listing.
const MOST_WRITTEN: usize = 65536;

// How many records of a list are gone through.
const MOST_RECORDS: u64 = 65536;

// The length at the front of a part of the list, two bytes, most significant first, and what stands behind it.
fn split_length(s: &[u8]) -> Option<(usize, &[u8])>
    ensures { IfSome result (λ answer. answer.0 < 65536) }
{
    let (length, rest) = s.split_first_chunk::<2>()?;
    Some((usize::from(u16::from_be_bytes(*length)), rest))
}

// A file of a length, its listing, and what stands behind them; nothing where they are cut off.
fn split_answer(length: usize, s: &[u8]) -> Option<(&[u8], &[u8], &[u8])> {
    let (file, rest) = s.split_at_checked(length)?;
    let (length, rest) = split_length(rest)?;
    let (expected, rest) = rest.split_at_checked(length)?;
    Some((file, expected, rest))
}

// Whether a file has this listing.
fn has_listing(file: &[u8], expected: &[u8]) -> bool {
    let mut buffer = [0u8; MOST_WRITTEN];
    let length = listing(file, &mut buffer);
    &buffer[..length] == expected
}

// Whether a record whose file has a length is a file with its listing, and what stands behind it. One that is cut off is not, nor
// is a file that there is no room for, of which only the length is read.
fn replay_record(length: usize, s: &[u8]) -> (bool, &[u8]) {
    if MOST_READ < length {
        return (false, s);
    }
    match split_answer(length, s) {
        Some((file, expected, rest)) => (has_listing(file, expected), rest),
        None => (false, &[]),
    }
}

// A record is a file and its listing, each with its length in front of it. Records are counted from 0, as entries are.
fn main(rt: HostRuntime) -> io::Result<()> {
    let mut list = Vec::new(rt.alloc());
    rt.reader().read_to_end(&mut list)?;
    // Where a record ends is known when it is read, so that what is left moves on, and what came is counted beside it.
    let mut rest = list.as_slice();
    let mut count: u64 = 0;
    let mut differences: u64 = 0;
    let mut first = None;
    for number in 0..MOST_RECORDS {
        let Some((length, behind)) = split_length(rest) else {
            break;
        };
        let (is_same, next) = replay_record(length, behind);
        if !is_same {
            first = first.or(Some(number));
            differences += 1;
        }
        count += 1;
        rest = next;
    }
    println!(rt; "{count} answers, {differences} differences")?;
    if let Some(number) = first {
        println!(rt; "first difference: {number}")?;
    }
    Ok(())
}
