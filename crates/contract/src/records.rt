// The records of a file, one behind the other. The file and the bytes lent for its records come from C side by side.
ghost use Rattle.std.specs.Prelude.{◌≡◌, ◌*◌, ◌<◌, ◌≤◌, length};
ghost use Rattle.questions.specs.Questions.{passes, ask_file};
ghost use Rattle.questions.specs.Answers.{number_of};
ghost use Rattle.reserves.specs.Reading.{file_of, Same};
ghost use Rattle.output.specs.Writes.{Writes};
ghost use Rattle.contract.specs.Records.{two_bytes};
ghost use Rattle.contract.specs.Coded.{head_of, record_of, CoversIn};
ghost use Rattle.contract.specs.Each.{EntryRecorded, EachRecorded, AllRecorded, RefusalRecorded};

use fields::bytes::keep;
use fields::row::fields_at;
use fundings::facts::nothing_known;
use output::Output;
use questions::file::check_file;
use questions::question::Refusal;
use reserves::reading::Reading;
use tags::ENTRY;
use verdict::entry::{NO_ENTRY, SHORT_FIELDS, SHORT_FILE, placed_verdict};
use verdict::numbers::{Numbers, Outcome};
use walking::walk::MOST_FIELDS;

// 64 payouts, the most that question 10 allows, have three bytes of covers each.
const COVERS: usize = 192;

// Of the records that are written: the largest of what the verdicts are, how many they are, and where the next one goes. They are
// counted, since those that found no room count too, and have no bytes.
#[derive(Drop)]
pub struct Recorded {
    pub outcome: Outcome,
    pub count: usize,
    pub end: usize,
}

// Writes a number in two bytes, most significant first.
fn write_number(number: usize, output: &mut Output)
    ensures { Writes (two_bytes number) output.old output.new }
{
    // Below 65,536 by the remainder: `try_from` would have to answer for what can't be.
    output.write_text(&((number % 65536) as u16).to_be_bytes());
}

// Writes the numbers of a verdict.
fn write_numbers(numbers: Numbers, output: &mut Output)
    ensures { Writes (head_of numbers) output.old output.new }
{
    output.write_byte(u8::from(numbers.outcome));
    write_number(numbers.first, output);
    write_number(numbers.second, output);
}

// Writes the record of a verdict with these numbers; the first of the bytes lent are the covers of an accepted entry. To lend the
// covers alone the caller would have to cut them out, by the same test of the outcome.
fn write_record(numbers: Numbers, covers: &[u8], output: &mut Output)
    requires { CoversIn numbers covers.now }
    ensures { Writes (record_of numbers covers.now) output.old output.new }
{
    write_numbers(numbers, output);
    if let Outcome::Accepted = numbers.outcome {
        output.write_text(keep(covers, 3 * numbers.first));
    }
}

// Writes the record of the entry at a place, and answers what the verdict on it is.
fn record_entry(reading: &mut Reading, place: usize, output: &mut Output) -> Outcome
    requires { place ≤ length (file_of reading.old) }
    ensures same { Same reading.old reading.new }
    ensures record { EntryRecorded (file_of reading.old) place output.old output.new result }
{
    let mut covers = [0u8; COVERS];
    let numbers = Numbers::from(placed_verdict(reading, place, &mut covers));
    write_record(numbers, &covers, output);
    numbers.outcome
}

// Writes the records of all entries of a file that passes questions 1 to 8. What the verdicts share is worked out once. That the
// table has room is a clause here, and from here on the Reading's.
fn record_entries(file: &[u8], scratch: &mut [u16], out: &mut [u8]) -> Recorded
    requires passed { ask_file file.now ≡ passes }
    requires scratch { length file.now ≤ 3 * length scratch.old }
    ensures { EachRecorded file.now out.old out.new result }
{
    let mut facts = nothing_known(file);
    let mut reading = Reading::new(&mut facts, scratch);
    let mut output = Output::new(out);
    // Both go on beside the entries: what is answered of all is no part of one.
    let mut outcome = Outcome::Accepted;
    let mut count = 0;
    for entry in fields_at(file, 0).filter(|field| field.tag() == ENTRY) {
        let what = record_entry(&mut reading, entry.place, &mut output);
        outcome = outcome.max(what);
        count += 1;
    }
    Recorded {
        outcome: outcome,
        count: count,
        end: output.written,
    }
}

// The same with a scratch table of its own, of a size that suits the file.
fn record_with<const FIELDS: usize>(file: &[u8], out: &mut [u8]) -> Recorded
    requires passed { ask_file file.now ≡ passes }
    requires scratch { length file.now ≤ 3 * FIELDS }
    requires small { FIELDS < 65536 }
    ensures { EachRecorded file.now out.old out.new result }
{
    let mut scratch = [0u16; FIELDS];
    record_entries(file, &mut scratch, out)
}

// Writes the record of a refusal, which is then the only one.
fn record_refusal(refusal: Refusal, out: &mut [u8]) -> Recorded
    ensures { RefusalRecorded (number_of refusal.question) refusal.place out.old out.new result }
{
    let mut output = Output::new(out);
    write_numbers(Numbers::from(refusal), &mut output);
    Recorded {
        outcome: Outcome::Refused,
        count: 1,
        end: output.written,
    }
}

// Writes the records of any file: that of a refusal, or one for each entry, and none where there are no entries. They are written
// as far as there is room.
pub fn each_record(file: &[u8], out: &mut [u8]) -> Recorded
    ensures { EachRecorded file.now out.old out.new result }
{
    if let Err(refusal) = check_file(file) {
        return record_refusal(refusal, out);
    }
    if file.len() <= SHORT_FILE {
        return record_with::<SHORT_FIELDS>(file, out);
    }
    record_with::<MOST_FIELDS>(file, out)
}

// The same with the refusal of question 9 where there are no entries. Such a file is not accepted: nothing was found out about the
// contract that it should carry.
pub fn write_records(file: &[u8], out: &mut [u8]) -> Recorded
    ensures { AllRecorded file.now out.old out.new result }
{
    let recorded = each_record(file, out);
    if recorded.count == 0 {
        return record_refusal(NO_ENTRY, out);
    }
    recorded
}
