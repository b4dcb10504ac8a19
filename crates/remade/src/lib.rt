// A library whose marks are made anew by document 02, Slip 2: theorems about its codes and its search, in proofs/ (Kept.antt,
// Neighbours.antt, Entries.antt). There is no code.
#![tactic(auto)]
