// Records of the library file and of a query: bytes as numbers, and the tests that every record has to pass.
#![tactic(auto)]

ghost use Rattle.std.specs.Prelude.{◌≡◌, false, get_or, drop, MatchOption};
ghost use Rattle.refusal.specs.First.{first};
ghost use Rattle.records.specs.Bytes.{from_low_first};
ghost use Rattle.records.specs.Records.{is_kind, record_length};
ghost use Rattle.records.specs.Kinds.{number_of};
ghost use Rattle.records.specs.Frame.{frame_causes};

use limits::MAX_DIMENSIONS;
use refusal::Refusal;

// The kinds of records, each with its number. specs/Records.antt has their table.
#[derive(Clone, Copy, PartialEq, Eq, Drop)]
pub enum Kind {
    Head = 1,
    Mark = 2,
    Vector = 3,
    End = 4,
    Fresh = 5,
    Held = 6,
    Lost = 7,
}

// The lengths of the kinds' records: the byte of kind and the body.
pub const HEAD_LENGTH: usize = 5;

pub const MARK_LENGTH: usize = 5;

pub const VECTOR_LENGTH: usize = VECTOR_FRONT + 2 * MAX_DIMENSIONS;

pub const END_LENGTH: usize = 1;

pub const FRESH_LENGTH: usize = 5;

pub const HELD_LENGTH: usize = 6;

pub const LOST_LENGTH: usize = 1;

// What stands in a vector's record in front of its components: the byte of kind and the settings.
pub const VECTOR_FRONT: usize = 5;

impl Kind {
    // The kind of a number, if there is one.
    #[tactic(auto, using(std::proofs::lemmas::Bool::Decides::nat_tests), unfolding(crate::specs::Records::is_kind, crate::specs::Records::is_among, crate::specs::Records::formats))]
    pub fn of(number: u32) -> Option<Kind>
        ensures { MatchOption result (is_kind number ≡ false) (λ kind. number ≡ number_of kind) }
    {
        match number {
            1 => Some(Kind::Head),
            2 => Some(Kind::Mark),
            3 => Some(Kind::Vector),
            4 => Some(Kind::End),
            5 => Some(Kind::Fresh),
            6 => Some(Kind::Held),
            7 => Some(Kind::Lost),
            _ => None,
        }
    }

    // The byte of kind that its records begin with.
    pub fn number(self) -> u32
        ensures { result ≡ number_of self }
    {
        self as u32
    }

    // The length of its records: the byte of kind and the body.
    #[tactic(auto, unfolding(crate::specs::Records::record_length, crate::specs::Records::sum, crate::specs::Records::widths_of, crate::specs::Records::widths_among, crate::specs::Records::formats))]
    pub fn length(self) -> usize
        ensures { result ≡ record_length (number_of self) }
    {
        match self {
            Kind::Head => HEAD_LENGTH,
            Kind::Mark => MARK_LENGTH,
            Kind::Vector => VECTOR_LENGTH,
            Kind::End => END_LENGTH,
            Kind::Fresh => FRESH_LENGTH,
            Kind::Held => HELD_LENGTH,
            Kind::Lost => LOST_LENGTH,
        }
    }
}

// The byte at an index, 0 past the end.
pub fn byte_at(bytes: &[u8], i: usize) -> u32
    ensures { result ≡ get_or bytes.now i 0 }
{
    u32::from(bytes.get(i).copied().unwrap_or(0))
}

// The number of two bytes, lowest first, with zeros past the end.
#[tactic(auto, using(crate::specs::ByteLaws::from_past, crate::specs::ByteLaws::two_bytes))]
pub fn u16_at(bytes: &[u8], at: usize) -> u32
    ensures { result ≡ from_low_first 2 (drop at bytes.now) }
{
    if bytes.len() <= at {
        return 0;
    }
    let low = byte_at(bytes, at);
    let high = byte_at(bytes, at + 1);
    low + 256 * high
}

// The number of four bytes, lowest first, with zeros past the end.
#[tactic(auto, using(crate::specs::ByteLaws::from_past, crate::specs::ByteLaws::two_halves))]
pub fn u32_at(bytes: &[u8], at: usize) -> u32
    ensures { result ≡ from_low_first 4 (drop at bytes.now) }
{
    if bytes.len() <= at {
        return 0;
    }
    let low = u16_at(bytes, at);
    let high = u16_at(bytes, at + 2);
    low + 65536 * high
}

// Whether a number is that of a kind.
#[tactic(auto, using(crate::specs::Kinds::some_known))]
pub fn is_kind(kind: u32) -> bool
    ensures { result ≡ is_kind kind }
{
    Kind::of(kind).is_some()
}

// The length of a kind's record, 1 where there is no such kind.
#[tactic(auto, using(crate::specs::Kinds::unknown_length))]
pub fn record_length(kind: u32) -> usize
    ensures { result ≡ record_length kind }
{
    match Kind::of(kind) {
        Some(known) => known.length(),
        None => 1,
    }
}

// The causes of a record but for the body's own. `placed` is whether its kind is one of those that this place is for.
#[tactic(auto, using(crate::specs::RecordLaws::kind_at), unfolding(refusal::specs::First::first, crate::specs::Frame::frame_causes))]
pub fn check_frame(bytes: &[u8], at: usize, placed: bool) -> Result<(), Refusal>
    ensures { result ≡ first (frame_causes placed (drop at bytes.now)) }
{
    if bytes.len() <= at {
        return Err(Refusal::Truncated);
    }
    let Some(kind) = Kind::of(byte_at(bytes, at)) else {
        return Err(Refusal::Kind);
    };
    if !placed {
        return Err(Refusal::Misplaced);
    }
    if bytes.len() - at < kind.length() {
        return Err(Refusal::Truncated);
    }
    Ok(())
}
