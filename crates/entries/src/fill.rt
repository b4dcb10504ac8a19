// Lent entries written over from an array.
ghost use Rattle.std.specs.Prelude.{◌≡◌, length};
ghost use Rattle.entries.specs.Filled.{filled, fitting};

use crate::Entry;
use limits::MAX_NEIGHBOURS;

// Writes the first `count` entries of an array over those lent, from `start` on; nothing where they do not fit.
pub fn fill(entries: &mut [Entry], start: usize, array: [Entry; MAX_NEIGHBOURS], count: usize)
    ensures { entries.new
        ≡ filled array entries.old start (fitting (length entries.old) start count) }
{
    if count <= MAX_NEIGHBOURS && start <= entries.len() && count <= entries.len() - start {
        entries[start..start + count].copy_from_slice(&array[..count]);
    }
}
