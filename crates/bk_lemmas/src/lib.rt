//! Plain facts on lists, truth values, orderings and numbers that several crates cite. They stand in `specs/`.
#![tactic(auto)]
