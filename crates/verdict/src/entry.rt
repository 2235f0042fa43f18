// SPDX-License-Identifier: Apache-2.0 OR MIT
// The verdict on an entry: it is read, questions 10 to 12 are asked, and then it is gone through payout by payout. The covers that
// C lends stand beside what is asked for, an entry or its number: they belong to the answer.
ghost use Rattle.std.specs.Prelude.{◌≡◌, ◌*◌, ◌≤◌, length, ok_or, IfSome, IfOk};
ghost use Rattle.entries.specs.Entered.{Read, Entered};
ghost use Rattle.reserves.specs.Reading.{file_of, Same};
ghost use Rattle.questions.specs.Answers.{asked};
ghost use Rattle.verdict.specs.declared.entry.Objection.TheVariants.{Refused};
ghost use Rattle.verdict.specs.Place.{place_of_entry, no_entry};
ghost use Rattle.verdict.specs.Coded.{ask_counted, numbers_of, placed_answer, placed_covers, matched_answer, matched_covers, entry_answer, entry_covers};

use super::sheet::{copy_sheet, write_cover};
use entries::entry::{Entry, read_entry};
use fundings::facts::nothing_known;
use matching::answer::{Pass, Reason};
use matching::payout::Payout;
use model::nth_entry;
use questions::question::{Answer, Question, Refusal};
use reserves::reading::Reading;
use tokens::entry::{EntryPlace, entry_at};
use walking::walk::MOST_FIELDS;

// Most files are no longer than this, and need a table of a fifth of the size, which is sooner cleared.
pub const SHORT_FILE: usize = 6144;

// A number for each three bytes of such a file.
pub const SHORT_FIELDS: usize = 2048;

// The "no" to question 9: there is no entry of that number.
pub const NO_ENTRY: Refusal = Refusal {
    question: Question::EntryNumber,
    place: 0,
};

// The number of payouts, each of which has a cover, and of the backings beyond them.
#[derive(Clone, Copy)]
pub struct Accepted {
    pub payouts: usize,
    pub spare: usize,
}

// A "no" to a question; or a payout that nothing covers, and why.
#[derive(Clone, Copy)]
pub enum Objection {
    Refused(Refusal),
    Rejected { payout: usize, reason: Reason },
}

impl From<Refusal> for Objection {
    ghost from_gives = { λ refusal objection. objection ≡ Refused refusal };

    fn from(refusal: Refusal) -> Objection {
        Objection::Refused(refusal)
    }
}

// The entry is accepted, or there is an objection.
pub type Verdict = Result<Accepted, Objection>;

// The entry, payout by payout. The covers are written at the end, where each payout has one.
fn match_payouts(reading: &mut Reading, entry: &Entry, covers: &mut [u8]) -> Verdict
    requires entered { Entered (file_of reading.old) entry.now }
    requires room { 3 * entry.now.payouts ≤ length covers.old }
    ensures same { Same reading.old reading.new }
    ensures answer { numbers_of result ≡ matched_answer (file_of reading.old) entry.now.place }
    ensures covers { covers.new ≡ matched_covers (file_of reading.old) entry.now.place covers.old }
{
    let mut sheet = [0u8; 192];
    let mut pass = Pass::start();
    let count = entry.payouts;
    for k in 0..count {
        let answer = pass.answer_payout(&Payout { entry, k }, reading);
        let cover = answer.map_err(|reason| Objection::Rejected { payout: k, reason })?;
        write_cover(cover, &mut sheet, k);
    }
    copy_sheet(&sheet[..3 * count], covers);
    Ok(Accepted {
        payouts: count,
        spare: entry.total.saturating_sub(count),
    })
}

// Lists the maps that some call of the file funds, where a debit may ask for its map's token. A reserve that asks for one has them
// listed by itself.
fn list_if_asked(reading: &mut Reading, debits: usize)
    ensures same { Same reading.old reading.new }
{
    if debits != 0 {
        reading.list_facts();
    }
}

// The entry past questions 10 to 12.
fn cover_payouts(reading: &mut Reading, entry: &Entry, covers: &mut [u8]) -> Verdict
    requires entered { Entered (file_of reading.old) entry.now }
    requires room { 3 * entry.now.payouts ≤ length covers.old }
    ensures same { Same reading.old reading.new }
    ensures answer { numbers_of result ≡ matched_answer (file_of reading.old) entry.now.place }
    ensures covers { covers.new ≡ matched_covers (file_of reading.old) entry.now.place covers.old }
{
    list_if_asked(reading, entry.debits);
    match_payouts(reading, entry, covers)
}

// Questions 10 to 12 of an entry, with as many bytes of covers lent.
#[tactic(auto, unfolding(crate::specs::Coded::ask_counted))]
fn ask_entry(entry: &Entry, lent: usize) -> Answer
    ensures { asked result ≡ ask_counted entry.now lent }
{
    if 64 < entry.payouts {
        return Err(Refusal {
            question: Question::PayoutCount,
            place: usize::from(entry.paid[64]),
        });
    }
    if 64 < entry.total {
        return Err(Refusal {
            question: Question::BackingCount,
            place: entry.place,
        });
    }
    if lent < 3 * entry.payouts {
        return Err(Refusal {
            question: Question::CoversLength,
            place: 0,
        });
    }
    Ok(())
}

// Questions 10 to 12 of the entry, and then its payouts, where there are some.
fn asked_verdict(reading: &mut Reading, entry: &Entry, covers: &mut [u8]) -> Verdict
    requires { Read (file_of reading.old) entry.now }
    ensures same { Same reading.old reading.new }
    ensures answer { numbers_of result ≡ placed_answer (file_of reading.old) entry.now.place (length covers.old) }
    ensures covers { covers.new ≡ placed_covers (file_of reading.old) entry.now.place covers.old }
{
    ask_entry(entry, covers.len())?;
    if entry.payouts == 0 {
        return Ok(Accepted {
            payouts: 0,
            spare: entry.total,
        });
    }
    cover_payouts(reading, entry, covers)
}

// The verdict on the entry at a place of a file that passes questions 1 to 9: question 10 and what comes behind it. The place is
// within by each search that finds one; a struct of the file and it would have to be taken apart again where its parts are read.
pub fn placed_verdict(reading: &mut Reading, place: usize, covers: &mut [u8]) -> Verdict
    requires { place ≤ length (file_of reading.old) }
    ensures same { Same reading.old reading.new }
    ensures answer { numbers_of result ≡ placed_answer (file_of reading.old) place (length covers.old) }
    ensures covers { covers.new ≡ placed_covers (file_of reading.old) place covers.old }
{
    let entry = read_entry(reading.facts.file, place, reading.scratch);
    asked_verdict(reading, &entry, covers)
}

// The same with tables of its own.
fn verdict_with<const FIELDS: usize>(entry: &EntryPlace, covers: &mut [u8]) -> Verdict
    requires room { length entry.now.file.now ≤ 3 * FIELDS }
    requires small { FIELDS ≤ 32768 }
    ensures answer { numbers_of result ≡ placed_answer entry.now.file.now entry.now.place (length covers.old) }
    ensures covers { covers.new ≡ placed_covers entry.now.file.now entry.now.place covers.old }
{
    let mut facts = nothing_known(entry.file);
    let mut scratch = [0u16; FIELDS];
    let mut reading = Reading::new(&mut facts, &mut scratch);
    placed_verdict(&mut reading, entry.place, covers)
}

// Most files are short, and a short table is soon cleared.
fn verdict_at(entry: &EntryPlace, covers: &mut [u8]) -> Verdict
    ensures answer { numbers_of result ≡ placed_answer entry.now.file.now entry.now.place (length covers.old) }
    ensures covers { covers.new ≡ placed_covers entry.now.file.now entry.now.place covers.old }
{
    if entry.file.len() <= SHORT_FILE {
        return verdict_with::<SHORT_FIELDS>(entry, covers);
    }
    verdict_with::<MOST_FIELDS>(entry, covers)
}

// Where the n-th entry stands in the file, counted from 0, if there is one.
pub fn place_of_entry(file: &[u8], n: usize) -> Option<usize>
    ensures place { result ≡ place_of_entry file.now n }
    ensures inside { IfSome result (λ place. place ≤ length file.now) }
{
    nth_entry(file, n).map(|entry| entry.place)
}

// The same, or the "no" to question 9 where there is none.
pub fn place_or_refusal(file: &[u8], n: usize) -> Result<usize, Refusal>
    ensures place { result ≡ ok_or (place_of_entry file.now n) no_entry }
    ensures inside { IfOk result (λ place. place ≤ length file.now) }
{
    place_of_entry(file, n).ok_or(NO_ENTRY)
}

// The verdict on the n-th entry of a file that passes question 1.
pub fn entry_verdict(file: &[u8], n: usize, covers: &mut [u8]) -> Verdict
    requires { length file.now ≤ 32768 }
    ensures answer { numbers_of result ≡ entry_answer file.now n (length covers.old) }
    ensures covers { covers.new ≡ entry_covers file.now n covers.old }
{
    let place = place_or_refusal(file, n)?;
    verdict_at(&entry_at(file, place), covers)
}
