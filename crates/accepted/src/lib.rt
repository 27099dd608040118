// No code: that a frame leaves an accepted state, for agreement and whole_call (specs/).
#![tactic(auto)]
