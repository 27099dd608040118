// No code: that a table of delays has what the frame call hands up, and the counts of the call that is decoded, over every list of lines (specs/Whole.antt), and that a row tells all of it (specs/Back.antt; change request 12).
#![tactic(auto)]
