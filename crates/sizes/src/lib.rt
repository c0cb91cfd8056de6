// How large the numbers of the cutting get: theorems only, in specs/.
#![tactic(auto)]
