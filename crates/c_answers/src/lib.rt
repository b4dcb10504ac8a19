// What a call from C gives of an answer: its values, each in its place, and 0 or the refusal's number. Where the answer is a refusal, a
// count is 0, and every other place is as it was.
#![tactic(auto)]

ghost use Rattle.std.specs.Prelude.{◌≡◌};
ghost use Rattle.refusal.specs.Refusal.{status_of};
ghost use Rattle.reading.specs.Intake.{intake_of, presence_of};
ghost use Rattle.region.specs.Lookup.{lookup_number};
ghost use Rattle.distance.specs.Measured.{distance_number};
ghost use Rattle.search.specs.Answer.{searched_number, searched_count};
ghost use Rattle.c_answers.specs.Answered.{Answered, AnsweredPresence, count_of, value_or, region_or, distance_or};

use loading::Loaded;
use reading::Reading;
use refusal::Refusal;

// Puts the value of an answer into its place, which a refusal leaves as it was.
fn put<T: Drop>(answer: Result<T, Refusal>, place: &mut T) -> u32
    ensures status { result ≡ status_of answer }
    ensures place { place.new ≡ value_or place.old answer }
{
    match answer {
        Ok(value) => {
            *place = value;
            0
        }
        Err(cause) => cause.number(),
    }
}

// Takes a reading in, and puts its component into a place.
pub fn put_component(reading: Reading, place: &mut i32) -> u32
    ensures { Answered (intake_of reading) result place.old place.new }
{
    put(reading.intake(), place)
}

// Takes a reading in by the second intake, and puts its component, 0 where it is absent, and whether it is present into two places.
pub fn put_presence(reading: Reading, component: &mut i32, present: &mut u32) -> u32
    ensures { AnsweredPresence (presence_of reading) result component.old component.new present.new }
{
    let answer = reading.presence();
    *present = u32::from(matches!(answer, Ok(Some(_))));
    put(answer.map(|z| z.unwrap_or(0)), component)
}

// Puts the region that was found into a place.
pub fn put_region(lookup: Result<usize, Refusal>, place: &mut usize) -> u32
    ensures { (result ≡ lookup_number lookup) × (place.new ≡ region_or place.old lookup) }
{
    put(lookup, place)
}

// Puts a distance into a place.
pub fn put_distance(answer: Result<u64, Refusal>, place: &mut u64) -> u32
    ensures { (result ≡ distance_number answer) × (place.new ≡ distance_or place.old answer) }
{
    put(answer, place)
}

// Puts the number of vectors that a search read into a place, 0 where it is refused.
pub fn put_read_count(answer: Result<usize, Refusal>, place: &mut usize) -> u32
    ensures { (result ≡ searched_number answer) × (place.new ≡ searched_count answer) }
{
    *place = answer.unwrap_or(0);
    refusal::status(answer)
}

// Puts the counts of a loaded library and its number of bytes into four places; all are 0 where it is refused.
pub fn put_counts(
    answer: Result<Loaded, Refusal>,
    d: &mut usize,
    b: &mut usize,
    n: &mut usize,
    used: &mut usize,
) -> u32
    ensures { (result ≡ status_of answer)
        × (d.new ≡ count_of (λ loaded. loaded.d) answer) × (b.new ≡ count_of (λ loaded. loaded.b) answer)
        × (n.new ≡ count_of (λ loaded. loaded.n) answer) × (used.new ≡ count_of (λ loaded. loaded.used) answer) }
{
    let loaded = answer.unwrap_or_default();
    *d = loaded.d;
    *b = loaded.b;
    *n = loaded.n;
    *used = loaded.used;
    refusal::status(answer)
}
