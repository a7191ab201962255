// Why a text, a tidying, a sampling or a sweep is refused: 01, "Numbers of refusal".
#![tactic(auto)]

ghost use Rattle.std.specs.Prelude.{◌≡◌};
ghost use Rattle.refusals.specs.Reasons.{reason_number};

#[derive(Clone, Copy)]
pub enum Reason {
    TextTooLong,
    ByteNotAllowed,
    UnknownKeyword,
    NotTaken, // a keyword or a type that is known and refused
    WordCount,
    Malformed,
    OutOfRange,
    NoReferent,
    CornerPattern, // another than the first corner's
    NotHere, // a statement that may not stand there, or a text that ends in a body
    Incomplete, // a body without a type, a degree or a parm
    ControlCount,
    ParameterOrder,
    NoTableRoom,
    BrokenRecord,
    NoOutputRoom,
    NoSuchElement,
    NotSampled, // a rational, cardinal or taylor body
    ParameterOutside,
}

impl Reason {
    // 01's number.
    pub fn number(self) -> u32
        ensures { result ≡ reason_number self }
    {
        match self {
            Reason::TextTooLong => 1,
            Reason::ByteNotAllowed => 2,
            Reason::UnknownKeyword => 3,
            Reason::NotTaken => 4,
            Reason::WordCount => 5,
            Reason::Malformed => 6,
            Reason::OutOfRange => 7,
            Reason::NoReferent => 8,
            Reason::CornerPattern => 9,
            Reason::NotHere => 10,
            Reason::Incomplete => 11,
            Reason::ControlCount => 12,
            Reason::ParameterOrder => 13,
            Reason::NoTableRoom => 14,
            Reason::BrokenRecord => 15,
            Reason::NoOutputRoom => 16,
            Reason::NoSuchElement => 17,
            Reason::NotSampled => 18,
            Reason::ParameterOutside => 19,
        }
    }
}

// A refusal of a text, and the place of what is at fault.
#[derive(Clone, Copy)]
pub struct Refusal {
    pub reason: Reason,
    pub place: usize,
}
