// The twelve questions, and the "no" to one of them.
ghost use Rattle.std.specs.Prelude.{◌≡◌};
ghost use Rattle.questions.specs.Answers.{number_of};

// Each has the number that the rules give it: 1 to 8 are about the file, 9 to 12 about an entry and the covers that are lent.
#[derive(Clone, Copy, PartialEq, Eq)]
pub enum Question {
    FileLength = 1,
    FieldEnd = 2,
    TagPlace = 3,
    Depth = 4,
    Content = 5,
    NeededParts = 6,
    StateNames = 7,
    EntryCount = 8,
    EntryNumber = 9,
    PayoutCount = 10,
    BackingCount = 11,
    CoversLength = 12,
}

impl From<Question> for u8 {
    ghost from_gives = { λ question number. number ≡ number_of question };

    // By `as`, which reads the discriminant; Rust has no other way.
    fn from(question: Question) -> u8 {
        question as u8
    }
}

// The first question whose answer is "no", with the place that it names.
#[derive(Clone, Copy)]
pub struct Refusal {
    pub question: Question,
    pub place: usize,
}

// All questions pass, or one refuses.
pub type Answer = Result<(), Refusal>;
