// No code: the conditions of Recovery can be met, and which of them are shown to be needed (specs/Needed.antt).
#![tactic(auto)]
