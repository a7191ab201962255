#![tactic(auto)]

pub mod exponent;
