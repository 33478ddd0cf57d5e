#![tactic(auto)]

// No code: what the definitions give, in tables that antt computes: document 01's marked examples, hulls in full with the validator's answers, and
// both sides of each limit.
