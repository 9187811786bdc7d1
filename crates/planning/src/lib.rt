// What planning means, as a definition that computes: refusals, windows, segments, the choice and the body. No code: the crates
// above meet it, and the laws here are about every plan.

#![tactic(auto)]
