// The report of a comparison: what is counted, and the forms that are printed, each ended by a line feed, written into lent memory.
#![tactic(auto)]

ghost use Rattle.std.specs.Prelude.{◌≡◌};
ghost use Rattle.report.specs.Report.{computed, none, add, begun, reached, earliest};

use compare_step::Class;
use count::Counts;

pub mod forms;

// The counts of a comparison: frames, and the concealed ones of them; and those of the other classes.
#[derive(Clone, Copy)]
pub struct Tally {
    pub counts: Counts,
    pub settling: u32,
    pub unclean: u32,
    pub known: u32,
    pub differ: u32,
}

// A stretch of frames in a row that are known or differ: its first frame, and how many of them differ.
#[derive(Clone, Copy)]
pub struct Stretch {
    pub from: u32,
    pub differ: u32,
}

// The first frame that differs, the sample, and what is left there. The sample has 32 bits, since `forms::fault` prints any.
#[derive(Clone, Copy)]
pub struct First {
    pub frame: u32,
    pub sample: u32,
    pub rest: i32,
}

// Whether the samples of a frame were computed.
pub fn computed(c: Class) -> bool
    ensures { result ≡ computed c }
{
    match c {
        Class::Known => true,
        Class::Differs(_) => true,
        _ => false,
    }
}

impl Tally {
    // Nothing counted.
    pub fn none() -> Tally
        ensures { result ≡ none }
    {
        Tally {
            counts: Counts::none(),
            settling: 0,
            unclean: 0,
            known: 0,
            differ: 0,
        }
    }

    // With a frame of this class, which the counts have.
    pub fn add(self, counts: Counts, c: Class) -> Tally
        ensures { result ≡ add self counts c }
    {
        let mut next = Tally { counts, ..self };
        match c {
            Class::Settling(_) => next.settling = line_step::one_more(self.settling),
            Class::NotClean(_) => next.unclean = line_step::one_more(self.unclean),
            Class::Known => next.known = line_step::one_more(self.known),
            Class::Differs(_) => next.differ = line_step::one_more(self.differ),
            _ => {}
        }
        next
    }
}

// The stretch so far, or one that begins with frame n.
fn begun(s: Option<Stretch>, n: u32) -> Stretch
    ensures { result ≡ begun s n }
{
    match s {
        Some(s) => s,
        None => Stretch { from: n, differ: 0 },
    }
}

// The stretch that frame n is in: none where its samples were not computed.
pub fn reached(s: Option<Stretch>, n: u32, c: Class) -> Option<Stretch>
    ensures { result ≡ reached s n c }
{
    let so_far = begun(s, n);
    match c {
        Class::Known => Some(so_far),
        Class::Differs(_) => Some(Stretch {
            from: so_far.from,
            differ: line_step::one_more(so_far.differ),
        }),
        _ => None,
    }
}

// The first frame that differs, of those before and frame n.
pub fn earliest(f: Option<First>, n: u32, c: Class) -> Option<First>
    ensures { result ≡ earliest f n c }
{
    match (f, c) {
        (None, Class::Differs(at)) => Some(First {
            frame: n,
            sample: at.sample as u32,
            rest: at.rest,
        }),
        _ => f,
    }
}
