#![tactic(auto)]

// The rows that document 01 marks with a star: one table, one claim, no code.
