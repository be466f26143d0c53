#![tactic(auto)]
// No code: counters that go round, rounding, and Lamport's formulas 9, 10, 14 and 15.
