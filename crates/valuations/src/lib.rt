// No code: the valuations of ranges, which of them meet inequalities, the first of these and how many they are.
#![tactic(auto)]
