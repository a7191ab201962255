#![tactic(auto)]

// Q-8, the head stays inside the block: theorems on what the sampler's entry points promise. No code.
