// Why a call, a plan text or a line is refused: each reason once, with its number.
#![tactic(auto)]

ghost use Rattle.std.specs.Prelude.{◌≡◌, ◌<◌};
ghost use Rattle.refusal.specs.Numbers.{number_of, code_of};

// The reasons, by their numbers.
#[derive(Clone, Copy, PartialEq, Eq)]
pub enum Refusal {
    // Load: the text is longer than a plan's may be.
    TextLong,
    // Load: a wrong key, a wrong form, a line missing, or bytes left over.
    TextForm,
    // Load: no stream, or more than there is room for.
    TextStreams,
    // Load: one to five small letters that name no operator.
    TextOperator,
    // Load: an unused field that is not 0, an argument that is no stream, or an input as an output.
    TextField,
    // Load: a cycle without a delayed argument.
    TextCycle,
    // The offers: no such stream, or it is no input.
    NoInput,
    // The offers: the stamp or the bound lies below the present bound.
    TooEarly,
    // A reading: the input holds as many events as there is room for.
    Full,
    // Progress: the bound lies above the horizon.
    PastHorizon,
    // A move or counts: no such stream; a move also: it is an input.
    NoEquation,
    // A move: the equation cannot move now.
    CannotMove,
    // Collect: no such stream, or it is no output.
    NoOutput,
    // Collect: nothing waits.
    Nothing,
    // The bytes are no state, or a buffer has no state's length.
    BadState,
    // A line of a trace that can't be read.
    BadLine,
    // The reader board: a block of another length, or a write that is not taken.
    BadWrite,
    // Load: a width outside 1 to 64, or more than eight windows.
    TextWindow,
    // A plan's text is longer than the buffer for it.
    TextRoom,
}

impl Refusal {
    // The number that the calls answer.
    pub fn number(self) -> u32
        ensures { (result ≡ number_of self) × (result < 256) }
    {
        match self {
            Refusal::TextLong => 1,
            Refusal::TextForm => 2,
            Refusal::TextStreams => 3,
            Refusal::TextOperator => 4,
            Refusal::TextField => 5,
            Refusal::TextCycle => 6,
            Refusal::NoInput => 7,
            Refusal::TooEarly => 8,
            Refusal::Full => 9,
            Refusal::PastHorizon => 10,
            Refusal::NoEquation => 11,
            Refusal::CannotMove => 12,
            Refusal::NoOutput => 13,
            Refusal::Nothing => 14,
            Refusal::BadState => 15,
            Refusal::BadLine => 16,
            Refusal::BadWrite => 17,
            Refusal::TextWindow => 18,
            Refusal::TextRoom => 19,
        }
    }
}

// The number of an outcome: 0 if it is done.
pub fn code(outcome: Result<(), Refusal>) -> u32
    ensures { (result ≡ code_of outcome) × (result < 256) }
{
    match outcome {
        Ok(()) => 0,
        Err(r) => r.number(),
    }
}
