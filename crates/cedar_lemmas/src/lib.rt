//! Lemmas of Booleans that several rooms cite; it holds no code.
#![tactic(auto)]
