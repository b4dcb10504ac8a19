// The answer of a match: the nearest vectors of a loaded library, as text.
ghost use Rattle.std.specs.Prelude.{◌≡◌, ◌≤◌, length};
ghost use Rattle.refusal.specs.First.{first};
ghost use Rattle.codes.specs.Codes.{code_length};
ghost use Rattle.approximation.specs.VectorCauses.{pack_vectors_causes};
ghost use Rattle.search.specs.Search.{searched, search_causes};
ghost use Rattle.search.specs.Ready.{index_of, query_of, room_of};
ghost use Rattle.library.specs.Library.{library_with};
ghost use Rattle.text.specs.Puts.{Puts};
ghost use Rattle.matching.specs.Answer.{searchable, answer_lines, answer_text};

use crate::lines::{put_answer, put_refusal};
use least_reading::nearest_by_bounds;
use limits::{KIT_VECTORS, MAX_DIMENSION_BITS, MAX_DIMENSIONS};
use search::Terms;

// The most bytes that codes have.
const CODES_ROOM: usize = KIT_VECTORS * MAX_DIMENSION_BITS * MAX_DIMENSIONS / 8;

// The text of the answer to a query.
pub(crate) fn answer(
    terms: Terms,
    query: &[i32],
    marks: &[i32],
    settings: &[u32],
    components: &[i32],
    text: &mut [u8],
) -> usize
    requires n_value { first (pack_vectors_causes terms.d terms.b terms.n components.now marks.now (code_length terms.b terms.n))
        ≡ Ok tt }
    requires n_value_2 { let l = library_with terms.d terms.b terms.n marks.now settings.now components.now in
        first (search_causes (searchable l) (query_of terms query.now) terms.k (room_of terms.k terms.n)) ≡ Ok tt }
    requires settings_len { length settings.now ≡ terms.n }
    requires k_in_bounds { let l = library_with terms.d terms.b terms.n marks.now settings.now components.now in
        length (answer_text l (query_of terms query.now) terms.k) ≤ length text.old }
    ensures { let l = library_with terms.d terms.b terms.n marks.now settings.now
        components.now in
        Puts (answer_text l (query_of terms query.now) terms.k) 0 text.old text.new result }
{
    let size = layout::codes_length(terms.d, terms.b, terms.n);
    let mut codes = [0u8; CODES_ROOM];
    let _ = approximation::pack_vectors(
        terms.d,
        terms.b,
        terms.n,
        components,
        marks,
        &mut codes[..size],
    );
    answer_coded(
        terms,
        query,
        marks,
        &codes[..size],
        settings,
        components,
        text,
    )
}

// The text of the answer to a query, with the codes of the vectors.
fn answer_coded(
    terms: Terms,
    query: &[i32],
    marks: &[i32],
    codes: &[u8],
    settings: &[u32],
    components: &[i32],
    text: &mut [u8],
) -> usize
    requires n_value { first (search_causes (index_of terms marks.now codes.now components.now) (query_of terms query.now) terms.k
        (room_of terms.k terms.n)) ≡ Ok tt }
    requires settings_len { length settings.now ≡ terms.n }
    requires k_in_bounds { length (answer_lines settings.now terms.k
        (searched (index_of terms marks.now codes.now components.now) (query_of terms query.now) terms.k)) ≤ length text.old }
    ensures { Puts (answer_lines settings.now terms.k
        (searched (index_of terms marks.now codes.now components.now)
        (query_of terms query.now) terms.k)) 0
        text.old text.new result }
{
    let n = terms.n;
    let k = terms.k;
    let mut reads = [0u32; KIT_VECTORS];
    match nearest_by_bounds(terms, query, marks, codes, components, k, &mut reads[..n]) {
        Ok(found) => put_answer(k, found.count, settings, found.entries, text),
        // Nothing refuses: the caller says so.
        Err(cause) => put_refusal(cause, text),
    }
}
