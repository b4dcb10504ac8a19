// The round trips of the library file: theorems about what `loading` and `writing` do, in specs/RoundTrip.antt and
// proofs/OneEncoding.antt. There is no code.
#![tactic(auto)]
