//! What the tokens that a parser took say of its value: lemmas for callers, and no code. The words stand in `specs/`, the lemmas in `proofs/`.
#![tactic(auto)]
