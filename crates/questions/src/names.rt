// Question 7: are state names different? Names that came before are noted in a table, by numbers made of their bytes, and a
// name is compared with them only where the table shows its number.
ghost use Rattle.std.specs.Prelude.{◌≡◌, ◌<◌, ◌*◌, ◌^◌, []};
ghost use Rattle.fields.specs.Field.{fields};
ghost use Rattle.model.specs.Model.{states};
ghost use Rattle.questions.specs.Noted.{joined_note, shows, with_number, shows_front, with_front};
ghost use Rattle.questions.specs.Questions.{ask_names};
ghost use Rattle.questions.specs.Answers.{asked};
ghost use Rattle.questions.specs.Compared.{Decided};

use super::comparison::Comparison;
use super::question::{Answer, Question, Refusal};
use fields::bytes::keep;
use fields::front::front_tag;
use fields::number::text_number;
use fields::row::fields_at;
use model::{has_state, name_of};
use tags::STATE;

// Most files are no longer than this. (The verdict's tables have the same limit, for a reason of their own.)
const SHORT_FILE: usize = 6144;

// The places of the table for such a file: a short table is soon cleared.
const SHORT_TABLE: usize = 2048;

// The places of the table for a longer file: the longest has some thousands of names.
const LONG_TABLE: usize = 16384;

// So many numbers in a row share a place of the long table, which has one for each value of their upper 14 bits.
const NUMBERS_OF_A_PLACE: usize = 262144;

// So many of these in a row share a note: there are 128 notes.
const NUMBERS_OF_A_NOTE: usize = 2048;

// What a place holds where different notes came together.
const SEVERAL: u8 = 255;

// The base of the first comparison.
const FIRST_BASE: usize = 1640531527;

// So many false alarms the first comparison may have: names that the table shows and that yet did not come before. In a good
// base a file of 2,500 names has about a dozen; for each, all names before are looked at.
const FEW_ALARMS: usize = 24;

// What a place holds after one more note; 0 is no note. An enum of none, a note and several would take two bytes of a place, and a
// table of twice the length is longer cleared.
#[tactic(auto, unfolding(crate::specs::Noted::joined_note))]
fn joined_note(held: u8, note: u8) -> u8
    ensures { result ≡ joined_note held note }
{
    if (held == 0) | (held == note) {
        note
    } else {
        SEVERAL
    }
}

// Notes a number in the table, and answers whether the table showed it before. A place where several notes came together
// shows every number, and so does a table without room.
fn note_number(number: usize, table: &mut [u8]) -> bool
    ensures shown { result ≡ shows table.old number }
    ensures noted { table.new ≡ with_number table.old number }
{
    if table.is_empty() {
        return true;
    }
    let i = number / NUMBERS_OF_A_PLACE % table.len();
    // By `as`: a remainder of seven bits, of which try_from would have an error that cannot be.
    let note = (number / NUMBERS_OF_A_NOTE % 128) as u8 + 1;
    let held = table[i];
    table[i] = joined_note(held, note);
    (held == note) | (held == SEVERAL)
}

impl Comparison {
    // Notes the name of the field at the front of s in the table, if it is a state field, and answers whether the table showed it
    // before.
    fn note_name(self, s: &[u8], table: &mut [u8]) -> bool
        ensures shown { result ≡ shows_front self.base s.now table.old }
        ensures noted { table.new ≡ with_front self.base s.now table.old }
    {
        if front_tag(s) != STATE {
            return false;
        }
        note_number(text_number(name_of(s), self.base), table)
    }

    // The first state field whose name an earlier one has: the names before it are those of the bytes before it. The table shows
    // them, so most names need not be looked for. The comparison gives up, with no answer, at one false alarm more than are
    // allowed: then too many names crowd in the places of the table. What the lent table holds at first makes no difference to
    // the answer.
    fn check_names_in(self, file: &[u8], table: &mut [u8]) -> Option<Answer>
        ensures { Decided file.now self.allowed result }
    {
        // Of the fields only those that gave a false alarm are counted.
        let mut alarms = 0;
        for field in fields_at(file, 0) {
            if !self.note_name(field.part, table) {
                continue;
            }
            if has_state(keep(file, field.place), name_of(field.part)) {
                return Some(Err(Refusal {
                    question: Question::StateNames,
                    place: field.place,
                }));
            }
            if alarms == self.allowed {
                return None;
            }
            alarms += 1;
        }
        Some(Ok(()))
    }

    // The same with a table of its own.
    fn check_names_with<const PLACES: usize>(self, file: &[u8]) -> Option<Answer>
        requires { PLACES < 65536 }
        ensures { Decided file.now self.allowed result }
    {
        let mut table = [0u8; PLACES];
        self.check_names_in(file, &mut table)
    }

    // The same with a table of the length that suits the file.
    fn check_names(self, file: &[u8]) -> Option<Answer>
        ensures { Decided file.now self.allowed result }
    {
        if file.len() <= SHORT_FILE {
            return self.check_names_with::<SHORT_TABLE>(file);
        }
        self.check_names_with::<LONG_TABLE>(file)
    }

    // The comparison after this one, with twice as many false alarms allowed. Its base is worked out from all bytes of the file, so
    // that it is not known before they are chosen. It is odd, so that every byte of a name counts.
    fn next(self, file: &[u8]) -> Comparison
        requires { self.allowed < 2 ^ 63 }
        ensures { result.allowed ≡ 2 * self.allowed }
    {
        Comparison {
            base: text_number(file, self.base) / 4 * 2 + 1,
            allowed: 2 * self.allowed,
        }
    }
}

// Any base gives the right answer, but in an unlucky one many names crowd in few places. Then they are compared anew in another
// base, with twice as many false alarms allowed, so that an end comes: no file has more of them than names.
pub fn check_names(file: &[u8]) -> Answer
    ensures { asked result ≡ ask_names [] (states (fields file.now)) }
{
    let mut comparison = Comparison {
        base: FIRST_BASE,
        allowed: FEW_ALARMS,
    };
    loop {
        if let Some(answer) = comparison.check_names(file) {
            return answer;
        }
        comparison = comparison.next(file);
    }
}
