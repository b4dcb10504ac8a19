// The bounds of codes' cells, as sums of the entries of a query's table, and the test whether a vector lies in a cell.
#![tactic(auto)]

mod bit_buffer;
pub mod cell;
pub mod inside;
pub mod regions;
pub mod sum;
