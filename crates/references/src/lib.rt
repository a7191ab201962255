#![tactic(auto)]

pub mod corner;
pub mod reference;
