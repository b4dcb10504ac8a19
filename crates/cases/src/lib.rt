// The proved cases: specs/Cases.antt has document 01's, P10 as document 02 has it, as one table under one statement; specs/Further.antt has
// cases for document 02, and libraries that meet what its theorems ask.
#![tactic(auto)]
