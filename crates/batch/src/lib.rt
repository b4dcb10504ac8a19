// A batch of queries to one library (document 02, Slip 5): what it is asked and what it answers, the tests that refuse it whole, and those
// that refuse one of its queries before anything is read.
#![tactic(auto)]

ghost use Rattle.std.specs.Prelude.{◌≡◌, ◌++◌, ◌≤◌};
ghost use Rattle.refusal.specs.First.{first};
ghost use Rattle.limits.specs.Limits.{max_vectors, max_queries};
ghost use Rattle.presence.specs.Presence.{word_causes};
ghost use Rattle.batch.specs.Batch.{answer_of, component_causes};
ghost use Rattle.batch.specs.BatchCauses.{exact_batch, batch_causes};

use layout::Layout;
use limits::MAX_QUERIES;
use refusal::Refusal;

// The numbers of a batch: of dimensions, bits, vectors and neighbours, and of queries.
#[derive(Clone, Copy, Drop)]
pub struct BatchTerms {
    pub d: usize,
    pub b: usize,
    pub n: usize,
    pub k: usize,
    pub m: usize,
}

// How long its buffers are, but for the marks and the codes.
#[derive(Clone, Copy, Drop)]
pub struct BatchLengths {
    pub queries: usize,
    pub words: usize,
    pub vectors: usize,
    pub answers: usize,
    pub entries: usize,
    pub reads: usize,
}

// The answer to one query: 0, or the number of its refusal, and how many vectors were read.
#[repr(C)]
#[derive(Drop)]
pub struct Answer {
    pub status: u32,
    pub count: usize,
}

// The answer of a search as one of a batch.
pub fn answer_of(answer: Result<usize, Refusal>) -> Answer
    ensures { result ≡ answer_of answer }
{
    match answer {
        Ok(count) => Answer { status: 0, count },
        Err(cause) => Answer {
            status: cause.number(),
            count: 0,
        },
    }
}

// Whether one query can be searched for: 19, 18, 6.
#[tactic(auto, using(refusal::specs::First::handed_on), unfolding(refusal::specs::First::first))]
pub fn check_query(d: usize, word: u32, query: &[i32]) -> Result<(), Refusal>
    ensures { result ≡ first (word_causes d word ++ component_causes query.now) }
{
    presence::check_word(d, word)?;
    if !signed::components::are_components(query) {
        return Err(Refusal::Component);
    }
    Ok(())
}

// Whether a batch can be searched for in a library with these marks and codes, its other buffers being so long.
#[tactic(auto, using(refusal::specs::First::handed_on), unfolding(refusal::specs::First::first))]
pub fn check_batch(
    terms: BatchTerms,
    lengths: BatchLengths,
    marks: &[i32],
    codes: &[u8],
) -> Result<(), Refusal>
    ensures { result ≡ first (batch_causes terms lengths marks.now codes.now) }
{
    if MAX_QUERIES < terms.m {
        return Err(Refusal::TooManyQueries);
    }
    let layout = Layout::new(terms.d, terms.b)?;
    if !limits::is_vector_count(terms.n) {
        return Err(Refusal::Count);
    }
    if !limits::is_neighbour_count(terms.n, terms.k) {
        return Err(Refusal::Neighbours);
    }
    if !exact_lengths(layout, terms, lengths, marks.len(), codes.len()) {
        return Err(Refusal::Length);
    }
    cells::check_codes(terms.d, terms.b, terms.n, marks, codes)
}

// Whether every buffer has its exact length, by the layout of these numbers.
fn exact_lengths(
    layout: Layout,
    terms: BatchTerms,
    lengths: BatchLengths,
    marks: usize,
    codes: usize,
) -> bool
    requires { (layout.d ≡ terms.d) × (layout.b ≡ terms.b) × (terms.m ≤ max_queries)
        × (terms.n ≤ max_vectors) × (terms.k ≤ terms.n) }
    ensures { result ≡ exact_batch terms lengths marks codes }
{
    let marked = marks == layout.marks_length();
    let coded = codes == layout.codes_length(terms.n);
    let stored = lengths.vectors == terms.n * terms.d;
    let asked = (lengths.queries == terms.m * terms.d) & (lengths.words == terms.m);
    let room = (lengths.entries == terms.m * terms.k) & (lengths.reads == terms.m * terms.n);
    marked & coded & stored & asked & (lengths.answers == terms.m) & room
}
