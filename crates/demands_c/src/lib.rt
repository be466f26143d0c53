#![tactic(auto)]
// No code: demands 1, 2 and 3 as statements about the numbers and states that C is handed.
