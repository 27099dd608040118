// No code: a job file read back (specs/Back.antt) and damaged (specs/Damage.antt), what a part of a call leaves (specs/Fits.antt), a call that is cut anywhere and resumed
// (specs/Resume.antt), and another call in its place (specs/Call.antt).
#![tactic(auto)]
