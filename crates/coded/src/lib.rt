// No code: the code's records of zones, along the whole route, are the cutting's zones.
#![tactic(auto)]
