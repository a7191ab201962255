#![tactic(auto)]

// Curves and surfaces as definitions, the exact value and the rounded rule, with the theorems that hold them together: no code.
