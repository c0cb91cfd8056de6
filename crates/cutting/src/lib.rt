// The cutting of a sheet's ranges into zones: its definition and what holds of any list of steps are in specs/. No code.
#![tactic(auto)]
