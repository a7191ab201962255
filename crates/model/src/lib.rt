#![tactic(auto)]

// What a file says and how its text says it, as definitions: no code.
