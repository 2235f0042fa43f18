// Questions 1 to 8 of a whole file.
ghost use Rattle.std.specs.Prelude.{◌≡◌};
ghost use Rattle.fields.specs.Field.{fields};
ghost use Rattle.model.specs.Model.{entries};
ghost use Rattle.questions.specs.Questions.{at_most, ask_file};
ghost use Rattle.questions.specs.Answers.{asked};

use super::check::check_form;
use super::names::check_names;
use super::question::{Answer, Question, Refusal};
use model::nth_entry;

// Question 8: at most 64 entries?
fn check_entries(file: &[u8]) -> Answer
    ensures { asked result ≡ at_most 64 8 (entries (fields file.now)) }
{
    match nth_entry(file, 64) {
        None => Ok(()),
        Some(entry) => Err(Refusal {
            question: Question::EntryCount,
            place: entry.place,
        }),
    }
}

// Any bytes, of any length: all questions pass, or the first "no".
pub fn check_file(file: &[u8]) -> Answer
    ensures { asked result ≡ ask_file file.now }
{
    check_form(file)?;
    check_names(file)?;
    check_entries(file)
}
