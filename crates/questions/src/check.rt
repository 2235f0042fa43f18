// Questions 1 to 6: the length of the file, then each field, outer before inner, front to back.
ghost use Rattle.std.specs.Prelude.{◌≡◌, ◌+◌, ◌≤◌, ◌<◌, length};
ghost use Rattle.fields.specs.Field.{fields, field_with};
ghost use Rattle.grammar.specs.Grammar.{slots_of};
ghost use Rattle.questions.specs.Questions.{depth_inside, ask_field, ask_fields, ask_form};
ghost use Rattle.questions.specs.Answers.{asked};
ghost use Rattle.questions.specs.Room.{Room};

use super::content::content_allowed;
use super::question::{Answer, Question, Refusal};
use cursor::{Cursor, Part};
use grammar::slots_of;
use tags::{is_composite, is_expression};

// The depth of an expression inside a field with this tag.
fn depth_inside(tag: u8, depth: usize) -> usize
    requires { depth ≤ 33 }
    ensures { (result ≡ depth_inside tag depth) × (result ≤ depth + 1) }
{
    if is_expression(tag) { depth + 1 } else { 1 }
}

// Questions 4 and 5 of the field with this tag and content at a place, then its parts.
#[cycle(check_field_check_fields)]
fn check_field(tag: u8, content: &[u8], place: usize, depth: usize) -> Answer
    requires { Room content.now (place + 3) depth }
    ensures { asked result ≡ ask_field depth place (field_with tag content.now) }
{
    if is_expression(tag) & (32 < depth) {
        return Err(Refusal {
            question: Question::Depth,
            place: place,
        });
    }
    if is_composite(tag) {
        return check_fields(tag, content, place, place + 3, depth_inside(tag, depth));
    }
    if content_allowed(tag, content) {
        return Ok(());
    }
    Err(Refusal {
        question: Question::Content,
        place: place,
    })
}

// Questions 2 and 3 of each field in a content that stands at start, with all that is inside it, and 6 behind the last: its place
// is the holder's, the field whose content this is. The cursor says at each step what stands there, as in the paper, so that the
// loop goes on until it says that nothing does.
#[cycle(check_field_check_fields)]
fn check_fields(outer: u8, content: &[u8], holder: usize, start: usize, depth: usize) -> Answer
    requires { Room content.now start depth }
    ensures { asked result ≡ ask_fields (slots_of outer) holder depth start (fields content.now) }
{
    let mut slots = slots_of(outer);
    let mut cursor = Cursor { at: 0 };
    loop {
        let at = cursor.at;
        match cursor.part(content) {
            Part::Found {
                tag,
                start: from,
                end: to,
                next,
            } => {
                let Some(left) = slots.advance(tag) else {
                    return Err(Refusal {
                        question: Question::TagPlace,
                        place: start + at,
                    });
                };
                slots = left;
                check_field(tag, &content[from..to], start + at, depth)?;
                cursor = next;
            }
            Part::Cut => {
                return Err(Refusal {
                    question: Question::FieldEnd,
                    place: start + at,
                });
            }
            Part::End => {
                break;
            }
        }
    }
    if slots.is_complete() {
        return Ok(());
    }
    Err(Refusal {
        question: Question::NeededParts,
        place: holder,
    })
}

// Questions 1 to 6.
pub fn check_form(file: &[u8]) -> Answer
    ensures { asked result ≡ ask_form file.now }
{
    if 32768 < file.len() {
        return Err(Refusal {
            question: Question::FileLength,
            place: 0,
        });
    }
    check_fields(0, file, 0, 0, 1)
}
