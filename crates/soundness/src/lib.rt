// What the zones of the cutting are worth against Sweep and against runs: specs/. No code.
#![tactic(auto)]
