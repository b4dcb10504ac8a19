// The presence word of a query (document 02, Slip 1): which dimensions were measured.
#![tactic(auto)]

ghost use Rattle.std.specs.Prelude.{◌≡◌};
ghost use Rattle.refusal.specs.First.{first};
ghost use Rattle.limits.specs.Limits.{max_dimensions};
ghost use Rattle.presence.specs.Presence.{factors_of, present_count, least_present, has_bit_past, word_causes};

use limits::MAX_DIMENSIONS;
use refusal::Refusal;

// So many dimensions must be present, or all where there are fewer.
pub const LEAST_PRESENT: usize = 4;

// Whether a search of d dimensions can go by this word.
#[tactic(auto, using(crate::specs::PresenceLaws::present_within), unfolding(refusal::specs::First::first))]
pub fn check_word(d: usize, word: u32) -> Result<(), Refusal>
    ensures { result ≡ first (word_causes d word) }
{
    let past = has_bit_past(d, word);
    let few = present_count(word) < least_present(d);
    if past {
        return Err(Refusal::PresenceBit);
    }
    if few {
        return Err(Refusal::TooFewPresent);
    }
    Ok(())
}

// Whether a bit stands at or above d.
fn has_bit_past(d: usize, word: u32) -> bool
    ensures { result ≡ has_bit_past d word }
{
    if MAX_DIMENSIONS <= d {
        return false;
    }
    word >> d != 0
}

// How many dimensions are present. Where no bit stands at or above d, these are of the first d (specs/PresenceLaws.antt).
#[tactic(auto, using(crate::specs::PresenceLaws::ones_present))]
pub fn present_count(word: u32) -> usize
    ensures { result ≡ present_count word max_dimensions }
{
    word.count_ones() as usize
}

// How many of d dimensions must be present.
fn least_present(d: usize) -> usize
    ensures { result ≡ least_present d }
{
    d.min(LEAST_PRESENT)
}

// The factor of each dimension: 1 where it is present, 0 where it is absent.
pub fn factors_of(word: u32) -> [u32; MAX_DIMENSIONS]
    ensures { result ≡ factors_of word }
{
    let mut factors = [0u32; MAX_DIMENSIONS];
    for (t, factor) in factors.iter_mut().enumerate() {
        *factor = (word >> t) % 2;
    }
    factors
}
