// No code: that the delays which the frame call hands up are those by their rules, and those of crate frame_delays, over every list of frames (change request 12).
#![tactic(auto)]
