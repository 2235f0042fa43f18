// The tags of the model file, and the classes of tags. A test by ranges costs no table. The tags are numbers and no enum: the
// rules name them by their numbers, any byte of a file may stand in a tag's place, and the classes are ranges of numbers.
#![tactic(auto)]

ghost use Rattle.std.specs.Prelude.{◌≡◌};
ghost use Rattle.tags.specs.Tag.{between, is_item, is_clause, is_statement, is_assign, is_expression, is_text, is_wrapper, composite};

// Top level, and the parts of an entry
pub const STATE: u8 = 0x01;

pub const GENESIS: u8 = 0x02;

pub const ENTRY: u8 = 0x03;

pub const PARAMETER: u8 = 0x04;

pub const LIMITS: u8 = 0x05;

pub const DENIES: u8 = 0x06;

// Statements: 13 to 15 have a target and a value
pub const GUARD: u8 = 0x10;

pub const LET: u8 = 0x11;

pub const EMIT: u8 = 0x12;

pub const SET: u8 = 0x13;

pub const ADD_TO: u8 = 0x14;

pub const SUBTRACT_FROM: u8 = 0x15;

pub const EXPRESSION_STATEMENT: u8 = 0x16;

// Texts
pub const NAME: u8 = 0x20;

pub const TYPE_NAME: u8 = 0x21;

// Expressions
pub const INTEGER: u8 = 0x30;

pub const DATE: u8 = 0x31;

pub const STRING: u8 = 0x32;

pub const IDENTIFIER: u8 = 0x33;

pub const CALLER: u8 = 0x34;

pub const NATIVE: u8 = 0x35;

pub const IN_ASSET: u8 = 0x36;

pub const NOW: u8 = 0x37;

pub const NOT: u8 = 0x38;

pub const NEGATE: u8 = 0x39;

pub const MEMBER: u8 = 0x3A;

pub const CALL: u8 = 0x3B;

pub const CHECKED: u8 = 0x3C;

pub const WRAPPING: u8 = 0x3D;

// Binary expressions
pub const OR: u8 = 0x40;

pub const AND: u8 = 0x41;

pub const EQ: u8 = 0x42;

pub const NE: u8 = 0x43;

pub const LT: u8 = 0x44;

pub const GT: u8 = 0x45;

pub const LE: u8 = 0x46;

pub const GE: u8 = 0x47;

pub const ADD: u8 = 0x48;

pub const SUB: u8 = 0x49;

pub const MUL: u8 = 0x4A;

pub const DIV: u8 = 0x4B;

pub const REM: u8 = 0x4C;

pub const SHR: u8 = 0x4D;

// Whether a tag is from low to high.
pub fn is_between(low: u8, high: u8, tag: u8) -> bool
    ensures { result ≡ between low high tag }
{
    (low..=high).contains(&tag)
}

// 01 to 03, at the top level
#[tactic(auto, unfolding(crate::specs::Tag::is_item))]
pub fn is_item(tag: u8) -> bool
    ensures { result ≡ is_item tag }
{
    matches!(tag, STATE..=ENTRY)
}

// 05, 06
#[tactic(auto, unfolding(crate::specs::Tag::is_clause))]
pub fn is_clause(tag: u8) -> bool
    ensures { result ≡ is_clause tag }
{
    matches!(tag, LIMITS..=DENIES)
}

// 10 to 16
#[tactic(auto, unfolding(crate::specs::Tag::is_statement))]
pub fn is_statement(tag: u8) -> bool
    ensures { result ≡ is_statement tag }
{
    matches!(tag, GUARD..=EXPRESSION_STATEMENT)
}

// 13 to 15
#[tactic(auto, unfolding(crate::specs::Tag::is_assign))]
pub fn is_assign(tag: u8) -> bool
    ensures { result ≡ is_assign tag }
{
    matches!(tag, SET..=SUBTRACT_FROM)
}

// 30 to 3D, 40 to 4D
#[tactic(auto, unfolding(crate::specs::Tag::is_expression))]
pub fn is_expression(tag: u8) -> bool
    ensures { result ≡ is_expression tag }
{
    matches!(tag, INTEGER..=WRAPPING | OR..=SHR)
}

// 20, 21, 30 to 33
#[tactic(auto, unfolding(crate::specs::Tag::is_text))]
pub fn is_text(tag: u8) -> bool
    ensures { result ≡ is_text tag }
{
    matches!(tag, NAME..=TYPE_NAME | INTEGER..=IDENTIFIER)
}

// 3C, 3D: what `peel` takes off
#[tactic(auto, unfolding(crate::specs::Tag::is_wrapper))]
pub fn is_wrapper(tag: u8) -> bool
    ensures { result ≡ is_wrapper tag }
{
    matches!(tag, CHECKED..=WRAPPING)
}

// 01 to 06, 10 to 16, 38 to 3D, 40 to 4D: the content is fields. As one pattern of four ranges it takes the comparison of
// expressions a sixth more instructions.
#[tactic(auto, unfolding(crate::specs::Tag::composite))]
pub fn is_composite(tag: u8) -> bool
    ensures { result ≡ composite tag }
{
    matches!(tag, STATE..=DENIES)
        | matches!(tag, GUARD..=EXPRESSION_STATEMENT)
        | matches!(tag, NOT..=WRAPPING)
        | matches!(tag, OR..=SHR)
}
