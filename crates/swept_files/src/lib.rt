#![tactic(auto)]

// Q-6, the retention sweep: theorems on what its entry point promises. No code.
