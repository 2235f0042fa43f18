// The lines of the listing, one behind the other: the text of a file's records.
ghost use Rattle.std.specs.Prelude.{◌≡◌, ◌<◌, IsSome, MatchOption, length};
ghost use mathlib.Core.List.{flat_map};
ghost use Rattle.output.specs.Output.{Written};
ghost use Rattle.output.specs.Writes.{Writes};
ghost use Rattle.contract.specs.Records.{below};
ghost use Rattle.contract.specs.Each.{records_enough};
ghost use Rattle.listing.specs.Listing as rules;
ghost use Rattle.listing.specs.Coded.{cover_line_at, lines_of, text_of};

use super::records::{Record, first_records};
use super::text::Word::{Number, Text};
use super::text::write_line;
use contract::records::each_record;
use fields::bytes::byte_at;
use output::Output;
use verdict::entry::SHORT_FILE;
use verdict::numbers::Outcome;

// A byte more than the records of every file take.
const RECORDS: usize = 12609;

// The records of a short file hardly take as much, and the shorter buffer is sooner cleared.
const SHORT_RECORDS: usize = 1024;

// The line of the cover of that number, whose kind and index are read back from its three bytes: `p number kind index`.
fn write_cover(covers: &[u8], number: usize, output: &mut Output)
    requires { number < 65536 }
    ensures { Writes (cover_line_at covers.now number) output.old output.new }
{
    let at = 3 * number;
    let kind = usize::from(byte_at(covers, at));
    // For front_number of records.rt the two bytes would have to be cut out first: tried, and no plainer; the proof was longer.
    let index = usize::from(u16::from_be_bytes([byte_at(covers, at + 1), byte_at(covers, at + 2)]));
    write_line(b"p", &[Number(number), Number(kind), Number(index)], output);
}

// The lines of so many covers.
fn write_covers(covers: &[u8], count: usize, output: &mut Output)
    requires { count < 65536 }
    ensures { Writes (flat_map (cover_line_at covers.now) (below count)) output.old output.new }
{
    for number in 0..count {
        write_cover(covers, number, output);
    }
}

// The lines of a record with a number: `r number place` of a refusal, `e number no payout` of a rejected entry, and of an accepted
// one `e number ok payouts spare` and the lines of its covers.
fn write_record(number: usize, front: Record, output: &mut Output)
    ensures { Writes (lines_of number front.entry.bytes.now) output.old output.new }
{
    let first = usize::from(front.first());
    let second = usize::from(front.second());
    match front.outcome() {
        Ok(Outcome::Refused) => write_line(b"r", &[Number(first), Number(second)], output),
        Ok(Outcome::Rejected) => write_line(
            b"e",
            &[Number(number), Text(b"no"), Number(first)],
            output,
        ),
        // What is no outcome reads as an accepted entry: no record that is written has it.
        Ok(Outcome::Accepted) | Err(_) => {
            write_line(
                b"e",
                &[Number(number), Text(b"ok"), Number(first), Number(second)],
                output,
            );
            write_covers(front.covers(), first, output);
        }
    }
}

// The lines of the first records, as many as are said: what stands behind them in the buffer is none.
fn write_records(records: &[u8], count: usize, output: &mut Output)
    ensures { Writes (text_of count 0 records.now) output.old output.new }
{
    for (number, record) in first_records(records, count).enumerate() {
        write_record(number, record, output);
    }
}

// The listing of a file by a buffer for its records, of a size that suits the file: none where it may be too short for them.
fn listing_with<const ROOM: usize>(file: &[u8], buffer: &mut [u8]) -> Option<usize>
    requires { ROOM < 65536 }
    ensures listed { MatchOption result (buffer.new ≡ buffer.old) (λ n. Written (rules.listing file.now) buffer.old 0 buffer.new n) }
    ensures enough { records_enough < ROOM → IsSome result }
{
    let mut records = [0u8; ROOM];
    let recorded = each_record(file, &mut records);
    if recorded.end == ROOM {
        return None;
    }
    let mut output = Output::new(buffer);
    write_records(&records, recorded.count, &mut output);
    Some(output.written)
}

// The listing of any file: the line of a refusal, or the lines of each entry. It is written as far as the buffer has room,
// and the answer is its length.
pub fn listing(file: &[u8], buffer: &mut [u8]) -> usize
    ensures { Written (rules.listing file.now) buffer.old 0 buffer.new result }
{
    if file.len() <= SHORT_FILE {
        if let Some(length) = listing_with::<SHORT_RECORDS>(file, buffer) {
            return length;
        }
    }
    listing_with::<RECORDS>(file, buffer).unwrap()
}
