// A vector added to a library, or one removed from it, for C. Each gives 0, or the refusal's number; a refused call leaves the buffers as
// they were.
ghost use Rattle.std.specs.Prelude.{◌≡◌, length};
ghost use Rattle.refusal.specs.Refusal.{status_of};
ghost use Rattle.refusal.specs.First.{first, outcome};
ghost use Rattle.updating.specs.Updated.{coded_library, added, removed};
ghost use Rattle.updating.specs.UpdateCauses.{lengths_with, add_causes, remove_causes};

use updating::{Addition, Removal};

// The library with a vector and its settings number behind the others.
#[unsafe(no_mangle)]
pub extern "C" fn matcher_add(
    d: usize,
    b: usize,
    n: usize,
    marks: &[i32],
    codes: &[u8],
    settings: &[u32],
    vectors: &[i32],
    vector: &[i32],
    setting: u32,
    newvectors: &mut [i32],
    newsettings: &mut [u32],
    newcodes: &mut [u8],
) -> u32
    ensures { let l = coded_library d b n marks.now codes.now settings.now vectors.now in
        let v = first (add_causes l vector.now (lengths_with (length newvectors.old)
        (length newsettings.old) (length newcodes.old))) in
        let after = added l vector.now setting in
        (result ≡ status_of v)
        × (newvectors.new ≡ outcome v after.vectors (λ _. newvectors.old))
        × (newsettings.new ≡ outcome v after.settings (λ _. newsettings.old))
        × (newcodes.new ≡ outcome v after.codes (λ _. newcodes.old)) }
{
    let terms = Addition { d, b, n, setting };
    let verdict = updating::add(
        terms,
        marks,
        codes,
        settings,
        vectors,
        vector,
        newvectors,
        newsettings,
        newcodes,
    );
    refusal::status(verdict)
}

// The library without the vector of a number; those behind it move down by one.
#[unsafe(no_mangle)]
pub extern "C" fn matcher_remove(
    d: usize,
    b: usize,
    n: usize,
    marks: &[i32],
    codes: &[u8],
    settings: &[u32],
    vectors: &[i32],
    number: usize,
    newvectors: &mut [i32],
    newsettings: &mut [u32],
    newcodes: &mut [u8],
) -> u32
    ensures { let l = coded_library d b n marks.now codes.now settings.now vectors.now in
        let v = first (remove_causes l number (lengths_with (length newvectors.old)
        (length newsettings.old) (length newcodes.old))) in
        let after = removed l number in
        (result ≡ status_of v)
        × (newvectors.new ≡ outcome v after.vectors (λ _. newvectors.old))
        × (newsettings.new ≡ outcome v after.settings (λ _. newsettings.old))
        × (newcodes.new ≡ outcome v after.codes (λ _. newcodes.old)) }
{
    let terms = Removal { d, b, n, number };
    let verdict = updating::remove(
        terms,
        marks,
        codes,
        settings,
        vectors,
        newvectors,
        newsettings,
        newcodes,
    );
    refusal::status(verdict)
}
