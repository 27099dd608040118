// The operation Count (01; change request 12): the counts of a call, its frames and those of them that are concealed, and its subframes by the rule of their delay.
#![tactic(auto)]

ghost use Rattle.std.specs.Prelude.{◌≡◌, false, min};
ghost use Rattle.refusal.specs.Refusal.{numbered};
ghost use Rattle.count.specs.Count.{no_counts, full, fits, frames_are, with_frame, with_rule, subframes, count, numbers, of_numbers};
ghost use Rattle.count.specs.Laws.{Few};

use refusal::Refusal;
use rule::{Rule, Rules};

// The most frames of a call, and the most subframes.
const MOST: u32 = 360000;

const MOST_SUBFRAMES: u32 = 720000;

#[derive(Clone, Copy)]
pub struct Counts {
    pub frames: u32,
    // Of these, the ones of kinds 1, 2 and 3.
    pub lost: u32,
    // Subframes by the rule of their delay, 1 to 5: `parity` those after bad parity.
    pub thirds: u32,
    pub whole: u32,
    pub relative: u32,
    pub parity: u32,
    pub concealed: u32,
}

// How many numbers these are.
pub const NUMBERS: usize = 7;

// A number of 32 bits, the greatest where it has more.
fn narrow(n: u64) -> u32
    ensures { result ≡ min n 4294967295 }
{
    u32::try_from(n).unwrap_or(u32::MAX)
}

impl Counts {
    // Nothing counted.
    pub fn none() -> Counts
        ensures { result ≡ no_counts }
    {
        Counts {
            frames: 0,
            lost: 0,
            thirds: 0,
            whole: 0,
            relative: 0,
            parity: 0,
            concealed: 0,
        }
    }

    // Whether a count is 360,000 or more, or that of a rule 720,000 or more.
    fn full(self) -> bool
        ensures { result ≡ full self }
    {
        let frames = (self.frames >= MOST) | (self.lost >= MOST);
        let coded = (self.thirds >= MOST_SUBFRAMES)
            | ((self.whole >= MOST_SUBFRAMES) | (self.relative >= MOST_SUBFRAMES));
        let carried = (self.parity >= MOST_SUBFRAMES) | (self.concealed >= MOST_SUBFRAMES);
        frames | (coded | carried)
    }

    // The subframes of all rules.
    fn subframes(self) -> u64
        ensures { result ≡ subframes self }
    {
        self.thirds as u64
            + (self.whole as u64
                + (self.relative as u64 + (self.parity as u64 + self.concealed as u64)))
    }

    // Whether calls of Count can lead to these counts.
    pub fn fits(self) -> bool
        ensures { result ≡ fits self }
    {
        let both = self.subframes() == 2 * (self.frames as u64);
        (self.frames <= MOST) & ((self.lost <= self.frames) & both)
    }

    // One frame more of this kind; no rule is counted.
    fn with_frame(self, kind: u32) -> Counts
        requires { full self ≡ false }
        ensures { result ≡ with_frame kind self }
    {
        let voice = kind == 0;
        let lost = if voice { self.lost } else { self.lost + 1 };
        Counts {
            frames: self.frames + 1,
            lost,
            ..self
        }
    }

    // One subframe more with this rule.
    fn with_rule(self, r: Rule) -> Counts
        requires { Few self 720000 }
        ensures { result ≡ with_rule self r }
    {
        let mut next = self;
        match r {
            Rule::Thirds => next.thirds += 1,
            Rule::Whole => next.whole += 1,
            Rule::Relative => next.relative += 1,
            Rule::BadParity => next.parity += 1,
            Rule::Concealed => next.concealed += 1,
        }
        next
    }

    // Whether n frames are counted.
    pub fn frames_are(self, n: u32) -> bool
        ensures { result ≡ frames_are n self }
    {
        n == self.frames
    }

    // The counts as numbers, for a file.
    pub fn numbers(self) -> [u64; NUMBERS]
        ensures { result ≡ numbers self }
    {
        [
            self.frames as u64,
            self.lost as u64,
            self.thirds as u64,
            self.whole as u64,
            self.relative as u64,
            self.parity as u64,
            self.concealed as u64,
        ]
    }

    // The counts that these numbers are.
    pub fn of_numbers(n: [u64; NUMBERS]) -> Counts
        ensures { result ≡ of_numbers n }
    {
        Counts {
            frames: narrow(n[0]),
            lost: narrow(n[1]),
            thirds: narrow(n[2]),
            whole: narrow(n[3]),
            relative: narrow(n[4]),
            parity: narrow(n[5]),
            concealed: narrow(n[6]),
        }
    }
}

// The operation Count: 5 for a kind above 3, 10 where a count is at or above its limit; else the counts with a frame of that kind and its two subframes in them.
pub fn count(kind: u32, r: Rules, c: Counts) -> Result<Counts, Refusal>
    ensures { numbered result ≡ count kind r c }
{
    if !kind::known(kind) {
        return Err(Refusal::Kind);
    }
    if c.full() {
        return Err(Refusal::CountLimit);
    }
    let frame = c.with_frame(kind);
    Ok(frame.with_rule(r.first).with_rule(r.second))
}
