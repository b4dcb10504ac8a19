// A library with a vector added or removed (document 02, Slip 3): theorems about its codes, in specs/Updates.antt and
// proofs/Follows.antt. There is no code.
#![tactic(auto)]
