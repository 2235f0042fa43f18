// The functions that C and Rust call: numbers and slices only. A slice is a pointer and then a length. Those that are there for
// comparisons with the original alone stand in compare.rt.
#![tactic(auto)]

ghost use Rattle.std.specs.Prelude.{◌≡◌, length, take};
ghost use Rattle.fields.specs.Field.{fields};
ghost use Rattle.questions.specs.Questions.{ask_file};
ghost use Rattle.claim.specs.Verdict.{entry_at, verdict, outcome, first_of, second_of, written};
ghost use Rattle.claim.specs.Claim.{Demand3};
ghost use Rattle.output.specs.Output.{Written};
ghost use Rattle.listing.specs.Listing.{listing};
ghost use Rattle.contract.specs.Records as contract;
ghost use Rattle.contract.specs.Backed.{EachBacked, EachWhole, EachVerdictBacked};
ghost use Rattle.export.specs.Refusal.{question_in, place_in};

pub mod compare;

use contract::records::write_records;
use listing::lines::listing;
use questions::file::check_file;
use verdict::file::file_verdict;
use verdict::numbers::Numbers;

// The verdict on an entry of a file, counted from 0: 0 accepted, 1 rejected, 2 refused, with two numbers beside (Verdict in the
// specs of crates/claim). Where it is accepted its covers are written in front of the lent ones. Demand 2 is `answer`, `first`,
// `second` and `covers`: the verdict and the bytes are those of the rules. Demand 3 is `backed`: what this answer, its two
// numbers and these bytes say of the entry's payouts.
#[unsafe(no_mangle)]
pub extern "C" fn zevdrak_verdict(
    file: &[u8],
    entry: usize,
    covers: &mut [u8],
    first: &mut usize,
    second: &mut usize,
) -> u8
    ensures answer { result ≡ outcome (verdict file.now entry (length covers.old)) }
    ensures first { first.new ≡ first_of (verdict file.now entry (length covers.old)) }
    ensures second { second.new ≡ second_of (entry_at (fields file.now) entry).this (verdict file.now entry (length covers.old)) }
    ensures covers { covers.new ≡ written (verdict file.now entry (length covers.old)) covers.old }
    ensures backed { Demand3 file.now entry covers.old result first.new second.new covers.new }
{
    let numbers = Numbers::from(file_verdict(file, entry, covers));
    *first = numbers.first;
    *second = numbers.second;
    u8::from(numbers.outcome)
}

// The verdicts on all entries of a file: a record of bytes for each (Records in the specs of crates/contract), written into the
// front of records as far as it has room, and how many bytes of it they take. The answer is 0 where each entry is accepted; else
// the largest of what they are, or 2 where the file is refused or has no entry. Demand 3 is `backed`: what each record says of its
// entry's payouts, where the bytes that were written have it whole. They have each entry's, if 12,608 bytes are lent: `whole`. And
// `verdicts` is demand 3 of each entry's verdict, however few bytes are lent.
#[unsafe(no_mangle)]
pub extern "C" fn zevdrak_contract(file: &[u8], records: &mut [u8], length: &mut usize) -> u8
    ensures answer { result ≡ contract.outcome_of_all file.now }
    ensures records { Written (contract.records file.now) «records».old 0 «records».new «length».new }
    ensures backed { EachBacked file.now (take «length».new «records».new) }
    ensures whole { EachWhole file.now «records».old (take «length».new «records».new) }
    ensures verdicts { EachVerdictBacked file.now }
{
    let recorded = write_records(file, records);
    *length = recorded.end;
    u8::from(recorded.outcome)
}

// The listing of a file, written into the front of out as far as it has room; the answer is how many bytes of out it takes.
#[unsafe(no_mangle)]
pub extern "C" fn zevdrak_listing(file: &[u8], out: &mut [u8]) -> usize
    ensures { Written (listing file.now) out.old 0 out.new result }
{
    listing(file, out)
}

// Questions 1 to 8 of a file: 0 if all pass, else the number of the first "no", whose place is then written.
#[unsafe(no_mangle)]
pub extern "C" fn zevdrak_check_file(file: &[u8], place: &mut usize) -> u8
    ensures { (result ≡ question_in (ask_file file.now)) × (place.new ≡ place_in (ask_file file.now) place.old) }
{
    match check_file(file) {
        Ok(()) => 0,
        Err(refusal) => {
            *place = refusal.place;
            u8::from(refusal.question)
        }
    }
}
