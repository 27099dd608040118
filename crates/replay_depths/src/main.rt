// Prints tables of playout depths as the program `depths` does. Standard input has a run a line: its words, apart by single blanks, of which the last is the text of arrivals. Each is printed, and
// behind it what comes of it (oracle/depths writes the runs, the texts and what must be printed).
#![tactic(auto)]

use depth_options::Wanted;
use replay::lines;
use std::io::Print;

// The table of a text.
fn table(rt: &HostRuntime, w: Wanted, name: &[u8]) {
    if let Ok(from) = files::opened(rt, name) {
        depths_files::depths(rt, w, &from, name);
    }
}

// The run of a line: its words are options and their values, or texts.
fn run(rt: &HostRuntime, line: &[u8]) {
    let _ = rt.write_all(line);
    let _ = rt.write_all(b"\n");
    let mut wanted = Wanted::none();
    lines::split(line, b' ', |word| {
        if wanted.takes(word) {
            wanted = wanted.next(word);
        } else {
            table(rt, wanted, word);
        }
    });
}

fn main(rt: HostRuntime) {
    lines::each(&rt, |line| run(&rt, line));
}
