// The causes for which a call says no.
#![tactic(auto)]

ghost use Rattle.std.specs.Prelude.{◌≡◌};
ghost use Rattle.refusal.specs.Refusal.{number_of, status_of};

// Document 01, "When a call says no": one variant for each row, with the row's number, in the table's order; then those of document 02.
#[derive(Clone, Copy, Drop)]
pub enum Refusal {
    Dimension = 1,
    Bits = 2,
    Count = 3,
    Neighbours = 4,
    Length = 5,
    Component = 6,
    Mark = 7,
    Outside = 8,
    Code = 9,
    Cell = 10,
    Kind = 11,
    Truncated = 12,
    Stale = 13,
    NotANumber = 14,
    OutOfRange = 15,
    Trailing = 16,
    Misplaced = 17,
    TooFewPresent = 18,
    PresenceBit = 19,
    Full = 20,
    NotRemovable = 21,
    TooManyQueries = 22,
}

impl Refusal {
    // The row's number, 1 to 22.
    pub fn number(self) -> u32
        ensures { result ≡ number_of self }
    {
        self as u32
    }
}

// What an answer is for C: 0, or the number of its refusal.
pub fn status<T: Drop>(answer: Result<T, Refusal>) -> u32
    ensures { result ≡ status_of answer }
{
    match answer {
        Ok(_) => 0,
        Err(cause) => cause.number(),
    }
}
