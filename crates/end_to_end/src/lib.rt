#![tactic(auto)]

// The demands, stated of `read_into` and `tidy_into`: what the entry points `read` and `tidy` promise, and no model between. No code.
