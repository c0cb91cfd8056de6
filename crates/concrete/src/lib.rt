// No code: Sweep's rules at one valuation, and what they are worth against runs. The definitions are in specs/.
#![tactic(auto)]
