// The statements of a body: parm, trim, hole, and its end.
#![tactic(auto)]

pub mod closing; // end
pub mod loops; // trim and hole
pub mod numbers;
pub mod parm;
