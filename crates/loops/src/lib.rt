#![tactic(auto)]
// No code: what the few kinds of loop compute, and the laws by which a search answers a loop's goals.
