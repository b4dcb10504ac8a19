// The library file and a query from bytes, for C. Each gives 0, or the refusal's number; a refused call leaves the buffers as they were,
// and its counts are 0.
ghost use Rattle.std.specs.Prelude.{◌≡◌, length};
ghost use Rattle.refusal.specs.Refusal.{status_of};
ghost use Rattle.refusal.specs.First.{first, outcome};
ghost use Rattle.library.specs.Library.{library_with, library_bytes, library_length, read_library};
ghost use Rattle.library.specs.Tests.{counts_causes};
ghost use Rattle.writing.specs.Write.{write_causes};
ghost use Rattle.loading.specs.Load.{load_causes, filled};
ghost use Rattle.query.specs.Query.{query_causes, components_of, present_query_causes, word_of};

// How many bytes a library of these counts has.
#[unsafe(no_mangle)]
pub extern "C" fn matcher_library_length(d: usize, b: usize, n: usize, length: &mut usize) -> u32
    ensures value { result ≡ status_of (first (counts_causes d b n)) }
    ensures length_after { length.new ≡ outcome (first (counts_causes d b n)) (library_length d b n) (λ _. 0) }
{
    *length = library::library_length(d, b, n);
    refusal::status(library::check_counts(d, b, n))
}

// The bytes of a library, into a buffer of as many.
#[unsafe(no_mangle)]
pub extern "C" fn matcher_write(
    d: usize,
    b: usize,
    n: usize,
    marks: &[i32],
    settings: &[u32],
    components: &[i32],
    bytes: &mut [u8],
) -> u32
    ensures { let l = library_with d b n marks.now settings.now components.now in
        let v = first (write_causes l (length bytes.old)) in
        (result ≡ status_of v) × (bytes.new ≡ outcome v (library_bytes l) (λ _. bytes.old)) }
{
    refusal::status(writing::write(d, b, n, marks, settings, components, bytes))
}

// The library that the bytes begin with, into the fronts of buffers of the largest size; its counts, and how many of the bytes it is.
#[unsafe(no_mangle)]
pub extern "C" fn matcher_load(
    bytes: &[u8],
    marks: &mut [i32],
    settings: &mut [u32],
    components: &mut [i32],
    d: &mut usize,
    b: &mut usize,
    n: &mut usize,
    used: &mut usize,
) -> u32
    ensures { let v = first (load_causes (length marks.old) (length settings.old)
        (length components.old) bytes.now) in
        let l = read_library bytes.now in
        (result ≡ status_of v)
        × (marks.new ≡ filled v l.marks marks.old)
        × (settings.new ≡ filled v l.settings settings.old)
        × (components.new ≡ filled v l.components components.old)
        × (d.new ≡ outcome v l.d (λ _. 0)) × (b.new ≡ outcome v l.b (λ _. 0))
        × (n.new ≡ outcome v l.n (λ _. 0))
        × (used.new ≡ outcome v (library_length l.d l.b l.n) (λ _. 0)) }
{
    let loaded = loading::load(bytes, marks, settings, components);
    c_answers::put_counts(loaded, d, b, n, used)
}

// The components of the d readings that the bytes hold, into a buffer of as many.
#[unsafe(no_mangle)]
pub extern "C" fn matcher_query(d: usize, bytes: &[u8], components: &mut [i32]) -> u32
    ensures { let v = first (query_causes d (length components.old) bytes.now) in
        (result ≡ status_of v)
        × (components.new ≡ outcome v (components_of d bytes.now) (λ _. components.old)) }
{
    refusal::status(query::query(d, bytes, components))
}

// The components of those of the d readings that are present, 0 where one is absent, into a buffer of d components; and the presence word.
#[unsafe(no_mangle)]
pub extern "C" fn matcher_query_present(
    d: usize,
    bytes: &[u8],
    components: &mut [i32],
    word: &mut u32,
) -> u32
    ensures { let v = first (present_query_causes d (length components.old) bytes.now) in
        (result ≡ status_of v)
        × (components.new ≡ outcome v (components_of d bytes.now) (λ _. components.old))
        × (word.new ≡ outcome v (word_of d bytes.now) (λ _. 0)) }
{
    let answer = query::query_present(d, bytes, components);
    *word = answer.unwrap_or(0);
    refusal::status(answer)
}
