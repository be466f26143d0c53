#![tactic(auto)]
// No code: marked graphs, firings, routes, cycles and processes, and the laws about them.
