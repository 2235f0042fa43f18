// A reading place in a part of the file: a small state by value, which each reading step hands back moved.
#![tactic(auto)]

ghost use Rattle.std.specs.Prelude.{◌≡◌};
ghost use Rattle.cursor.specs.Cursor.{head_at, text_at, part_at};

use fields::bytes::skip;
use fields::front::{front_tag, length_of};

#[derive(Clone, Copy)]
pub struct Cursor {
    pub at: usize,
}

// A head of three bytes, and the cursor at the content.
#[derive(Clone, Copy)]
pub enum Head {
    Found {
        tag: u8,
        length: usize,
        next: Cursor,
    },
    Cut,
    End,
}

// A text, which stands from start up to end.
#[derive(Clone, Copy)]
pub enum Text {
    Found {
        start: usize,
        end: usize,
        next: Cursor,
    },
    Cut,
}

// A whole field, whose content stands from start up to end.
#[derive(Clone, Copy)]
pub enum Part {
    Found {
        tag: u8,
        start: usize,
        end: usize,
        next: Cursor,
    },
    Cut,
    End,
}

impl Cursor {
    pub fn head(self, s: &[u8]) -> Head
        ensures { result ≡ head_at s.now self.at }
    {
        let rest = skip(s, self.at);
        if rest.is_empty() {
            return Head::End;
        }
        if rest.len() < 3 {
            return Head::Cut;
        }
        Head::Found {
            tag: front_tag(rest),
            length: length_of(rest),
            next: Cursor { at: self.at + 3 },
        }
    }

    pub fn text(self, s: &[u8], length: usize) -> Text
        ensures { result ≡ text_at s.now self.at length }
    {
        if skip(s, self.at).len() < length {
            return Text::Cut;
        }
        let end = self.at + length;
        Text::Found {
            start: self.at,
            end: end,
            next: Cursor { at: end },
        }
    }

    pub fn part(self, s: &[u8]) -> Part
        ensures { result ≡ part_at s.now self.at }
    {
        match self.head(s) {
            Head::Found { tag, length, next } => match next.text(s, length) {
                Text::Found { start, end, next } => Part::Found {
                    tag: tag,
                    start: start,
                    end: end,
                    next: next,
                },
                Text::Cut => Part::Cut,
            },
            Head::Cut => Part::Cut,
            Head::End => Part::End,
        }
    }
}
