#![tactic(auto)]
// No code: demands 1, 2 and 3 as statements about the definitions that the functions are promised to meet.
