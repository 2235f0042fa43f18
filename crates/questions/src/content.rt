// Question 5: what a text or an empty field may hold.
ghost use Rattle.std.specs.Prelude.{◌≡◌};
ghost use Rattle.laws.specs.Lists.{all};
ghost use Rattle.tags.specs.Tag.{between};
ghost use Rattle.questions.specs.Questions.{content_allowed};

use tags::{INTEGER, STRING, is_text};

// Whether every byte is from 20 to 7E.
fn is_printable(text: &[u8]) -> bool
    ensures { result ≡ all (between 0x20 0x7E) text.now }
{
    text.iter().all(|&byte| matches!(byte, 0x20..=0x7E))
}

// Whether the content of a field that has no parts obeys the rules.
#[tactic(auto, unfolding(crate::specs::Questions::content_allowed, laws::specs::Texts::known))]
pub fn content_allowed(tag: u8, content: &[u8]) -> bool
    ensures { result ≡ content_allowed tag content.now }
{
    if !is_text(tag) {
        return content.is_empty();
    }
    is_printable(content) & (!content.is_empty() | matches!(tag, INTEGER..=STRING))
}
