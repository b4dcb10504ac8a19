// The entry to a search: all causes of its refusal but the one that is met while reading.
ghost use Rattle.std.specs.Prelude.{◌≡◌, ◌≤◌, length};
ghost use Rattle.refusal.specs.First.{first};
ghost use Rattle.limits.specs.Limits.{max_vectors};
ghost use Rattle.search.specs.Search.{exact_lengths, entry_causes};
ghost use Rattle.search.specs.Ready.{index_of, query_of, room_of};

use crate::Terms;
use layout::Layout;
use refusal::Refusal;

// Whether a library can be searched for the k nearest to a query, where so many entries and numbers of vectors read are lent. The query
// is tested by itself, and so are the library's marks and codes.
#[tactic(auto, using(refusal::specs::First::handed_on), unfolding(refusal::specs::First::first))]
pub fn check_entry(
    terms: Terms,
    query: &[i32],
    marks: &[i32],
    codes: &[u8],
    vectors: &[i32],
    entries: usize,
    reads: usize,
) -> Result<(), Refusal>
    ensures { result ≡ first (entry_causes (index_of terms marks.now codes.now vectors.now)
        (query_of terms query.now) terms.k (room_of entries reads)) }
{
    let layout = Layout::new(terms.d, terms.b)?;
    if !limits::is_vector_count(terms.n) {
        return Err(Refusal::Count);
    }
    if !limits::is_neighbour_count(terms.n, terms.k) {
        return Err(Refusal::Neighbours);
    }
    presence::check_word(terms.d, terms.word)?;
    if !exact_lengths(layout, terms, query, marks, codes, vectors, entries, reads) {
        return Err(Refusal::Length);
    }
    if !signed::components::are_components(query) {
        return Err(Refusal::Component);
    }
    cells::check_codes(terms.d, terms.b, terms.n, marks, codes)
}

// Whether every buffer has its exact length, by the layout of these numbers.
fn exact_lengths(
    layout: Layout,
    terms: Terms,
    query: &[i32],
    marks: &[i32],
    codes: &[u8],
    vectors: &[i32],
    entries: usize,
    reads: usize,
) -> bool
    requires { (layout.d ≡ terms.d) × (layout.b ≡ terms.b) × (terms.n ≤ max_vectors) }
    ensures { result ≡ exact_lengths (index_of terms marks.now codes.now vectors.now)
        (query_of terms query.now) terms.k (room_of entries reads) }
{
    query.len() == terms.d
        && marks.len() == layout.marks_length()
        && codes.len() == layout.codes_length(terms.n)
        && vectors.len() == terms.n * terms.d
        && entries == terms.k
        && reads == terms.n
}
