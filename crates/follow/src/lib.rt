#![tactic(auto)]
// No code: the machine beside the marked graph fired in the same order.
