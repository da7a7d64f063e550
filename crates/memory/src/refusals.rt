// Why a call is turned back.
ghost use Rattle.std.specs.Prelude.{◌≡◌};
ghost use Rattle.memory.specs.rules.Refusals.{answer_number, answer_word, number};

// The refusals of document 01, each with its number there.
#[derive(Clone, Copy, Debug, PartialEq, Eq)]
pub enum Refusal {
    // A side, or the dots of a mask, outside their limits.
    Sides = 1,
    // A mask that has not as many bytes as its sides give.
    MaskLength = 2,
    // A byte of a mask above 1.
    MaskByte = 3,
    Skew = 4,
    Slope = 5,
    Sheet = 6,
    Capacity = 7,
    // A point, a box or a kind that the frame or the page has not.
    Place = 8,
    // Lent memory that is too short.
    Lent = 9,
    // A store or a plane that no accepted calls leave so.
    Spoiled = 16,
    NotEmpty = 17,
    NotLevelled = 18,
    NotSegmented = 19,
    TooManyComponents = 20,
    TooManyLines = 21,
}

impl From<Refusal> for u32 {
    ghost from_gives = { λ refusal n. n ≡ number refusal };

    fn from(refusal: Refusal) -> u32 {
        refusal as u32
    }
}

// The number of an answer: 0 where the call is accepted.
pub fn number_of<T: Drop>(answer: Result<T, Refusal>) -> u32
    ensures { result ≡ answer_number answer }
{
    match answer {
        Ok(_) => 0,
        Err(refusal) => u32::from(refusal),
    }
}

// An answer as one word, as C has it: the number of a refusal in the high half, or else the value.
pub fn word_of(answer: Result<u32, Refusal>) -> u64
    ensures { result ≡ answer_word answer }
{
    match answer {
        Ok(value) => value as u64,
        Err(refusal) => (u32::from(refusal) as u64) * 4294967296,
    }
}
