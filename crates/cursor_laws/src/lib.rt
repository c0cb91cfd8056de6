// No code: what holds of fields and counted lists that a cursor has read. The definitions are in specs/Right, the laws in the other files.
#![tactic(auto)]
