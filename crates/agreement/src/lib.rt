// What the replies of Windows and Sweep are worth together: specs/Agreement and what stands beside it. No code.
#![tactic(auto)]
