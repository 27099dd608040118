// What the program `depths` does: reads a text of arrivals, and prints the table of lost frames against playout depths (change request 11), and the least depth at which no more than the wanted
// number is lost. No contract can say what is read or written: the lines are made on lent memory, where they are the operation's.
#![tactic(auto)]

mod reading;
mod rows;

use depth_options::Wanted;
use files::{Input, Told};
use refusal::Refusal;

// The most frames, and the most arrivals: an hour of frames.
pub const MOST: usize = 360000;

// As many turns as there can be.
pub(crate) const TURNS: u64 = 18446744073709551615;

// Says that nothing arrived: a filter that lets no packet through must not pass for a call without losses.
fn unheard(rt: &HostRuntime, arrivals: usize) {
    if arrivals == 0 {
        files::say(
            rt,
            b"depths",
            b"no arrivals: if these are from a capture, see whether its filter lets any packet through",
        );
    }
}

// Prints the table of an open text. Where a line is refused its form is printed alone: 9 for a line that is none, 20 for more frames or arrivals than an hour has, 21 for an arrival of no frame; in
// the order of the lines. The reason is on standard error, as it is where the text can't be read.
pub fn depths(rt: &HostRuntime, w: Wanted, from: &Input, name: &[u8]) {
    let _ = table(rt, w, from, name);
}

// The same; where it ends early the reason was told.
fn table(rt: &HostRuntime, w: Wanted, from: &Input, name: &[u8]) -> Result<(), Told> {
    if w.frames.is_some_and(|n| MOST < n as usize) {
        return Err(files::refuse(
            rt,
            Refusal::PlayoutLimit.number(),
            b"depths",
            b"refused (20): more than 360,000 frames are asked for",
        ));
    }
    let mut numbers = [0u32; MOST];
    let mut times = [0u32; MOST];
    let n = reading::read(rt, w, from, name, &mut numbers, &mut times)?;
    unheard(rt, n);
    rows::print(rt, w, &numbers[..n], &times[..n])
}
