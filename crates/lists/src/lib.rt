#![tactic(auto)]

// Definitions on lists and tests that every other crate shares, with their laws: no code.
