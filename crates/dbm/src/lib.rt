// No code: the theory of difference bound matrices of weights, for any number of clocks. It is in specs/.
#![tactic(auto)]
