// No code: runs of a sheet and tightest bounds over them. The definitions are in specs/.
#![tactic(auto)]
