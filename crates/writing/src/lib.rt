// A library written to bytes.
#![tactic(auto)]

mod check;
mod put;

ghost use Rattle.std.specs.Prelude.{◌≡◌, length};
ghost use Rattle.refusal.specs.First.{first, outcome};
ghost use Rattle.library.specs.Library.{library_with, library_bytes};
ghost use Rattle.writing.specs.Write.{write_causes};

use crate::check::check_library;
use crate::put::{put_byte, write_head, write_marks, write_vectors};
use layout::Layout;
use library::vector_place;
use records::Kind;
use refusal::Refusal;

// The bytes of a library are written into a buffer of as many.
pub fn write(
    d: usize,
    b: usize,
    n: usize,
    marks: &[i32],
    settings: &[u32],
    components: &[i32],
    bytes: &mut [u8],
) -> Result<(), Refusal>
    ensures value { result ≡ first (write_causes (library_with d b n marks.now settings.now components.now)
        (length bytes.old)) }
    ensures bytes_after { bytes.new
        ≡ outcome (first (write_causes (library_with d b n marks.now settings.now components.now)
        (length bytes.old)))
        (library_bytes (library_with d b n marks.now settings.now components.now))
        (λ _. bytes.old) }
{
    let layout = Layout::new(d, b)?;
    check_library(layout, n, marks, settings, components, bytes.len())?;
    write_all(layout, n, marks, settings, components, bytes);
    Ok(())
}

// The records of a library that can be written are written one behind the other.
fn write_all(
    layout: Layout,
    n: usize,
    marks: &[i32],
    settings: &[u32],
    components: &[i32],
    bytes: &mut [u8],
)
    requires { first (write_causes (library_with layout.d layout.b n marks.now settings.now components.now) (length bytes.old)) ≡ Ok tt }
    ensures { bytes.new
        ≡ library_bytes (library_with layout.d layout.b n marks.now settings.now components.now) }
{
    write_head(layout.d, layout.b, n, bytes);
    write_marks(marks, bytes);
    write_vectors(layout.d, n, marks.len(), settings, components, bytes);
    put_byte(
        bytes,
        vector_place(marks.len() as u32, n as u32),
        Kind::End as u64,
    );
}
