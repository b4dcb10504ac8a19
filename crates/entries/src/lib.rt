// Entries, each a vector's number and its distance from a query, and the array of the most neighbours that holds them by value.
#![tactic(auto)]

pub mod fill;

ghost use Rattle.std.specs.Prelude.{◌≡◌};
ghost use Rattle.order.specs.Pairs.{pairs_of};
ghost use Rattle.entries.specs.Entries.{entries_of, in_array};

use limits::MAX_NEIGHBOURS;

// A vector's number and its distance from the query.
#[repr(C)]
#[derive(Clone, Copy, Drop)]
pub struct Entry {
    pub number: u32,
    pub distance: u64,
}

// The entries of keys and their numbers at the front, as many as there are pairs and as fit; blank entries behind them.
pub fn entries_of(keys: &[u64], numbers: &[u32]) -> [Entry; MAX_NEIGHBOURS]
    ensures { result ≡ in_array (entries_of (pairs_of keys.now numbers.now)) }
{
    let count = keys.len().min(numbers.len()).min(MAX_NEIGHBOURS);
    let mut entries = [Entry {
        number: 0,
        distance: 0,
    }; MAX_NEIGHBOURS];
    for i in 0..count {
        entries[i] = Entry {
            number: numbers[i],
            distance: keys[i],
        };
    }
    entries
}
