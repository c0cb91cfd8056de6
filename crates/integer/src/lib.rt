// No code: integers for proofs. The laws are in specs/.
#![tactic(auto)]
