// The program `depths`: how many frames of a text of arrivals would be lost at each playout depth (change request 11). Crate depths_files does the work; here are the words of the command line.
#![tactic(auto)]

use depth_options::{Setting, Wanted};
use files::Told;
use options::{Asked, What};

const USAGE: [u8; 89] =
    *b"usage: depths [--frames N] [--start MS] [--to MS] [--step MS] [--lost N | P%] [ARRIVALS]\n";

// What the words ask for: those that all programs take, and those of this one.
#[derive(Clone, Copy)]
struct Both {
    asked: Asked,
    wanted: Wanted,
}

impl Both {
    // Whether no further word changes what is asked.
    fn settled(self) -> bool {
        self.wanted.wrong.is_some() || self.asked.settled()
    }

    // The next word, argument i.
    fn next(self, i: usize, word: &[u8]) -> Both {
        if self.settled() {
            return self;
        }
        if self.asked.what == What::Run && self.wanted.takes(word) {
            return Both {
                wanted: self.wanted.next(word),
                ..self
            };
        }
        Both {
            asked: self.asked.next(1, i, word),
            ..self
        }
    }

    // The option whose value is missing or can't be taken.
    fn misused(self) -> Option<Setting> {
        if self.asked.what == What::Run {
            return self.wanted.wrong.or(self.wanted.awaits);
        }
        self.wanted.wrong
    }
}

// All arguments. A word that is too long for the buffer reads as empty, which is refused.
fn arguments(rt: &HostRuntime) -> Both {
    let mut b = Both {
        asked: Asked::none(),
        wanted: Wanted::none(),
    };
    for i in 1..usize::MAX {
        let mut room = [0u8; 4096];
        let Some(word) = files::arg(rt, i, &mut room) else {
            break;
        };
        b = b.next(i, word);
    }
    b
}

// What an option takes, in words.
fn why(option: Setting) -> &'static [u8] {
    match option {
        Setting::Frames => b"--frames takes a number of frames, at most 360,000",
        Setting::Start => b"--start takes a time in milliseconds, at most 4294967295",
        Setting::To => b"--to takes a depth in milliseconds, at most 4294967295",
        Setting::Step => b"--step takes a depth in milliseconds, at least 1 and at most 4294967295",
        Setting::Lost => {
            b"--lost takes a number of frames, or a whole percentage, at most 100, with % behind it; for 0.5 % give the number of frames"
        }
    }
}

// An option without a value that it takes: why, and the usage. False, and nothing done, where there is none.
fn misused(rt: &HostRuntime, b: Both, usage: &[u8]) -> bool {
    let Some(option) = b.misused() else {
        return false;
    };
    files::say(rt, b"depths", why(option));
    files::tell(rt, usage);
    true
}

// The table of the arrivals in a file, or on standard input.
fn run(rt: &HostRuntime, a: Asked, w: Wanted) -> Result<(), Told> {
    let mut room = [0u8; 4096];
    let name = files::argument(rt, a.first, b"standard input", &mut room);
    let from = files::input(
        rt,
        a.first.is_some(),
        name,
        b"depths",
        b"reading arrivals from the terminal; end them with Ctrl-D (depths --help tells more)",
    )?;
    depths_files::depths(rt, w, &from, name);
    Ok(())
}

fn main(rt: HostRuntime) {
    let b = arguments(&rt);
    let a = b.asked;
    let usage = USAGE;
    if misused(&rt, b, &usage) || files::no_tables(&rt, a, b"depths", &usage) {
        return;
    }
    let done = files::answered(
        &rt,
        a,
        b"depths",
        &usage,
        b"Prints how many frames would be lost at each playout depth, a row a depth: the depth in milliseconds, the lost frames, and their percentage.\nThe last line has the least depth at which no more than the wanted number is lost.\n\n  depths --lost 2% monday.arrivals >monday.depths\n  plot/depths -o monday.png monday.depths\n\n  ARRIVALS    a file or a named pipe; else they are read from standard input. An arrival a line: the frame's number, a space, tab or comma,\n              and its time in milliseconds, decimal. Any order, and frames that arrive twice, are allowed\n  --frames N  how many frames the call has; else one more than the greatest number\n  --start MS  when frame 0 is played at depth 0; else so that depth 0 is just enough for the fastest frame\n  --to MS     no depth above it, 200 if not given\n  --step MS   from one depth to the next, 10 if not given\n  --lost N    how many frames may be lost; P% is a part of all frames, P a whole number, rounded down; 1% if not given\n  --help      this text\n  --version   the version\n\nA call has at most 360,000 frames and arrivals. A text that is refused prints no table but\n(refused (code C) (line L)), and the reason is said on standard error.\n",
    );
    if !done {
        let _ = run(&rt, a, b.wanted);
    }
}
