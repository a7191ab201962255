#![tactic(auto)]

// What reading accepts, sampling never refuses with 15: the theorems that join the reader's definitions to the sampler's. No code.
