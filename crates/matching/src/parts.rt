// The parts of a match behind its library: k, then a query.
ghost use Rattle.std.specs.Prelude.{◌≡◌, true, ◌&&◌, ◌≤◌, leb, length};
ghost use Rattle.refusal.specs.First.{first};
ghost use Rattle.library.specs.Library.{library_with};
ghost use Rattle.matching.specs.Match.{k_causes};
ghost use Rattle.text.specs.Puts.{Puts};
ghost use Rattle.matching.specs.Steps.{Ready, rest_text, query_text};

use crate::K_LENGTH;
use crate::answer::answer;
use crate::lines::put_refusal;
use limits::MAX_DIMENSIONS;
use refusal::Refusal;
use search::Terms;

// The text of a match whose library passes, from what stands behind the library.
pub(crate) fn match_rest(
    rest: &[u8],
    d: usize,
    b: usize,
    n: usize,
    marks: &[i32],
    settings: &[u32],
    components: &[i32],
    text: &mut [u8],
) -> usize
    requires ready { Ready (library_with d b n marks.now settings.now components.now) }
    requires rest_in_bounds { length (rest_text (library_with d b n marks.now settings.now components.now) rest.now) ≤ length text.old }
    ensures { Puts (rest_text (library_with d b n marks.now settings.now components.now)
        rest.now) 0 text.old text.new result }
{
    match check_k(rest, n) {
        Ok(()) => {
            let k = records::u16_at(rest, 0) as usize;
            match_query(
                &rest[K_LENGTH..],
                d,
                b,
                n,
                k,
                marks,
                settings,
                components,
                text,
            )
        }
        Err(cause) => put_refusal(cause, text),
    }
}

// Whether k is there, and is from 1 to n.
fn check_k(rest: &[u8], n: usize) -> Result<(), Refusal>
    ensures { result ≡ first (k_causes n rest.now) }
{
    if rest.len() < K_LENGTH {
        return Err(Refusal::Truncated);
    }
    if !limits::is_neighbour_count(n, records::u16_at(rest, 0) as usize) {
        return Err(Refusal::Neighbours);
    }
    Ok(())
}

// The text of a match whose library and k pass, from the query's bytes.
fn match_query(
    bytes: &[u8],
    d: usize,
    b: usize,
    n: usize,
    k: usize,
    marks: &[i32],
    settings: &[u32],
    components: &[i32],
    text: &mut [u8],
) -> usize
    requires ready { (Ready (library_with d b n marks.now settings.now components.now)) × (leb 1 k && leb k n ≡ true) }
    requires bytes_in_bounds { length (query_text (library_with d b n marks.now settings.now components.now) k bytes.now) ≤ length text.old }
    ensures { Puts (query_text (library_with d b n marks.now settings.now components.now) k
        bytes.now) 0 text.old text.new result }
{
    let mut query = [0i32; MAX_DIMENSIONS];
    match query::query_present(d, bytes, &mut query[..d]) {
        Ok(word) => answer(
            Terms { d, b, n, k, word },
            &query[..d],
            marks,
            settings,
            components,
            text,
        ),
        Err(cause) => put_refusal(cause, text),
    }
}
