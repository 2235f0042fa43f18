// The fields of a part of the file in a row, front to back.
ghost use Rattle.std.specs.Prelude.{◌≡◌, ◌+◌, ◌^◌, ◌<◌, length, take, drop};
ghost use Rattle.std.specs.Iterator.{item_count};
ghost use Rattle.fields.specs.Field.{fields, front, tag, text, parts, sizes, placed_parts};
ghost use Rattle.fields.specs.Row.{shown, left, Steps};

pub use super::field::{Field, Fields};
use super::front::{after_front, front_tag, is_whole, length_of, parts_of, text_of};

// The fields of s, which stands at a place.
pub fn fields_at(s: &[u8], place: usize) -> Fields
    requires { place + length s.now < 2 ^ 64 }
    ensures rest { result.rest.now ≡ s.now }
    ensures place { result.place ≡ place }
{
    Fields {
        place: place,
        rest: s,
    }
}

impl<'a> Iterator for Fields<'a> {
    type Item = Field<'a>;

    ghost next_gives = { Steps };

    ghost remaining = { item_count left };

    fn next(&mut self) -> Option<Field<'a>> {
        let place = self.place;
        let part = self.rest;
        if !is_whole(part) {
            return None;
        }
        self.place = place + (3 + length_of(part));
        self.rest = after_front(part);
        Some(Field {
            place: place,
            part: part,
        })
    }
}

impl<'a> Field<'a> {
    pub fn tag(&self) -> u8
        ensures { result ≡ tag (front self.now.part.now) }
    {
        front_tag(self.part)
    }

    // Its text: no bytes where it has parts.
    pub fn text(&self) -> &'a [u8]
        ensures reads { result.now ≡ text (front self.now.part.now) }
        ensures shows { result.now ≡ take (length (text (front self.now.part.now))) (drop 3 self.now.part.now) }
    {
        text_of(self.part)
    }

    // Its parts, which stand behind its three-byte head: none where it has a text.
    pub fn parts(&self) -> Fields<'a>
        ensures row { left result ≡ placed_parts (shown self.now) }
        ensures place { result.place ≡ self.now.place + 3 }
        ensures reads { fields result.rest.now ≡ parts (front self.now.part.now) }
        ensures shows { result.rest.now ≡ take (sizes (parts (front self.now.part.now))) (drop 3 self.now.part.now) }
    {
        fields_at(parts_of(self.part), self.place + 3)
    }
}
