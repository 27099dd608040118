// No code: what a far decoder holds, from its samples (specs/Recovery.antt), and that the comparison of compare_step never blames a sound line (specs/Sound.antt, Faults.antt).
#![tactic(auto)]
