// What the search is, and its theorems (specs/Search.antt, specs/Theorems.antt). In code: what it is asked, what it answers, and the
// test at its entry.
#![tactic(auto)]

pub mod entry;

use entries::Entry;
use limits::MAX_NEIGHBOURS;

// The numbers of a search: of dimensions, bits, vectors and neighbours, and the query's presence word.
#[derive(Clone, Copy, Drop)]
pub struct Terms {
    pub d: usize,
    pub b: usize,
    pub n: usize,
    pub k: usize,
    pub word: u32,
}

// The nearest vectors' entries at the front of an array, with blank ones behind them, and how many vectors were read.
#[derive(Drop)]
pub struct Found {
    pub entries: [Entry; MAX_NEIGHBOURS],
    pub count: usize,
}
