// Which tags may stand where, and which parts are needed: the rows of the grammar.
#![tactic(auto)]

ghost use Rattle.std.specs.Prelude.{◌≡◌};
ghost use Rattle.std.specs.Option.{option_map};
ghost use Rattle.grammar.specs.Grammar.{in_class, takes, may_stay_empty, goes_on, slots_of, advance, complete};
ghost use Rattle.grammar.specs.Slots.{class_number, slot_number, slot_list};

use self::Slot::{Many, One, Optional};
use tags::{
    CALL, CHECKED, DENIES, EMIT, ENTRY, EXPRESSION_STATEMENT, GENESIS, GUARD, LET, LIMITS, MEMBER,
    NAME, NEGATE, NOT, OR, PARAMETER, SET, SHR, STATE, SUBTRACT_FROM, TYPE_NAME, WRAPPING,
    is_clause, is_expression, is_item, is_statement,
};

// The classes of tags that a part may have.
#[derive(Clone, Copy, PartialEq, Eq)]
pub enum Class {
    Name = 1,
    TypeName = 2,
    Item = 3,
    Parameter = 4,
    Clause = 5,
    Statement = 6,
    Expression = 7,
}

// A slot is for one part of a class, for at most one, or for any count.
#[derive(Clone, Copy, PartialEq, Eq)]
pub enum Slot {
    One(Class),
    Optional(Class),
    Many(Class),
}

// The slots that are left for the parts of a field, the next one first.
#[derive(Clone, Copy)]
pub struct Slots {
    pub left: &'static [Slot],
}

impl Class {
    // Whether a tag is of the class.
    #[tactic(auto, unfolding(crate::specs::Grammar::in_class))]
    pub fn has(self, tag: u8) -> bool
        ensures { result ≡ in_class (class_number self) tag }
    {
        match self {
            Class::Name => tag == NAME,
            Class::TypeName => tag == TYPE_NAME,
            Class::Item => is_item(tag),
            Class::Parameter => tag == PARAMETER,
            Class::Clause => is_clause(tag),
            Class::Statement => is_statement(tag),
            Class::Expression => is_expression(tag),
        }
    }
}

impl Slot {
    // Whether a part with this tag goes into the slot.
    fn takes(self, tag: u8) -> bool
        ensures { result ≡ takes (slot_number self) tag }
    {
        let (One(class) | Optional(class) | Many(class)) = self;
        class.has(tag)
    }

    // Whether the slot needs no part.
    fn may_stay_empty(self) -> bool
        ensures { result ≡ may_stay_empty (slot_number self) }
    {
        !matches!(self, One(_))
    }

    // Whether the slot takes more parts.
    fn goes_on(self) -> bool
        ensures { result ≡ goes_on (slot_number self) }
    {
        matches!(self, Many(_))
    }
}

// The slots for the parts of a field.
#[tactic(auto, unfolding(crate::specs::Grammar::grammar, crate::specs::Grammar::slots_in))]
pub fn slots_of(tag: u8) -> Slots
    ensures { slot_list result ≡ slots_of tag }
{
    let left: &'static [Slot] = match tag {
        0 => &[Many(Class::Item)],
        STATE => &[
            One(Class::Name),
            One(Class::TypeName),
            Optional(Class::Expression),
        ],
        GENESIS => &[One(Class::Statement)],
        ENTRY => &[
            One(Class::Name),
            Many(Class::Parameter),
            Many(Class::Clause),
            Many(Class::Statement),
        ],
        PARAMETER => &[One(Class::Name), One(Class::TypeName)],
        LET => &[One(Class::Name), One(Class::Expression)],
        EMIT => &[One(Class::Name), Many(Class::Expression)],
        LIMITS..=DENIES | GUARD | EXPRESSION_STATEMENT => &[One(Class::Expression)],
        NOT | NEGATE | CHECKED | WRAPPING => &[One(Class::Expression)],
        SET..=SUBTRACT_FROM | OR..=SHR => &[One(Class::Expression), One(Class::Expression)],
        MEMBER => &[One(Class::Expression), One(Class::Name)],
        CALL => &[One(Class::Expression), Many(Class::Expression)],
        _ => &[],
    };
    Slots { left: left }
}

impl Slots {
    // Question 3: the slots that are left behind a part with this tag, if it may stand here. Nothing is counted: slots are left out
    // from the front while they may stay empty.
    #[tactic(auto, unfolding(crate::specs::Grammar::advance))]
    pub fn advance(self, tag: u8) -> Option<Slots>
        ensures { option_map slot_list result ≡ advance (slot_list self) tag }
    {
        let mut left = self.left;
        while let Some((slot, behind)) = left.split_first() {
            if slot.takes(tag) {
                return Some(Slots {
                    left: if slot.goes_on() { left } else { behind },
                });
            }
            if !slot.may_stay_empty() {
                return None;
            }
            left = behind;
        }
        None
    }

    // Question 6: was every needed part there?
    pub fn is_complete(self) -> bool
        ensures { result ≡ complete (slot_list self) }
    {
        self.left.iter().all(|slot| slot.may_stay_empty())
    }
}
