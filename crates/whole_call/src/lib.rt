// No code: what the parts of a call print together (specs/Whole.antt), and the reads of a program through crate read_step (specs/Reads.antt); what a call's last form is
// (specs/Ending.antt), and which numbers refuse it (specs/Codes.antt).
#![tactic(auto)]
