// Trying playout depths (change request 11): which frames of a list of arrivals would be played, and how many lost. Times are in milliseconds.
#![tactic(auto)]

ghost use Rattle.std.specs.Prelude.{◌≡◌, ◌+◌, ◌<◌, length};
ghost use Rattle.refusal.specs.Refusal.{code, numbered};
ghost use Rattle.playout.specs.Playout.{Answer, arrivals, due, kinds, lost, below, refusal, playout, enough, least};
ghost use Rattle.playout.specs.Laws.{kept, take_in};
ghost use Rattle.playout.specs.Least.{half};

use refusal::Refusal;

// The most frames, and the most arrivals, of a call.
const MOST: u32 = 4096;

// The greatest depth.
const DEEPEST: u32 = 4294967295;

// The kinds of frame that are written: numbers, as the list that C lends has them.
const VOICE: u32 = 0;

const ERASED: u32 = 3;

// Depths between which the least is looked for, both among them.
#[derive(Clone, Copy)]
struct Between {
    low: u32,
    high: u32,
}

// When frame i is played.
fn due(start: u32, depth: u32, i: u32) -> u64
    ensures { result ≡ due start depth i }
{
    start as u64 + depth as u64 + 10 * (i as u64)
}

// The kind of a frame after one more of its arrivals: voice where that is in time.
fn kept(kind: u32, time: u32, due: u64) -> u32
    ensures { result ≡ kept kind time due }
{
    if (time as u64) <= due { VOICE } else { kind }
}

// One arrival. One whose number isn't below the frame count changes nothing.
fn take(start: u32, depth: u32, number: u32, time: u32, kinds: &mut [u32])
    ensures { kinds.new ≡ take_in start depth number time kinds.old }
{
    let i = number as usize;
    if i < kinds.len() {
        kinds[i] = kept(kinds[i], time, due(start, depth, number));
    }
}

// The kind of each frame at this depth, for any number of frames and arrivals: the arrivals are as many as the shorter of their lists has, and those whose number isn't below the frame count change nothing.
pub fn kinds(start: u32, depth: u32, numbers: &[u32], times: &[u32], out: &mut [u32])
    ensures { out.new ≡ kinds start depth (arrivals numbers.now times.now) (length out.old) }
{
    out.fill(ERASED);
    for j in 0..numbers.len().min(times.len()) {
        take(start, depth, numbers[j], times[j], out);
    }
}

// How many of the kinds are 3.
pub fn lost(kinds: &[u32]) -> usize
    ensures { result ≡ lost kinds.now }
{
    let mut n = 0;
    for kind in kinds {
        n += usize::from(*kind == ERASED);
    }
    n
}

// Whether every number is below the frame count. There is no early return, so that the compiler can take several at a time.
fn below(frames: u32, numbers: &[u32]) -> bool
    ensures { result ≡ below frames numbers.now }
{
    let mut all = true;
    for n in numbers {
        if frames <= *n {
            all = false;
        }
    }
    all
}

// What is refused before a kind is written: 20 more than 4,096 frames or arrivals, 21 an arrival whose number isn't below the frame count, 7 not as many times as numbers or not a kind for each frame.
fn check(frames: u32, numbers: &[u32], times: usize, room: usize) -> Result<(), Refusal>
    ensures { code result ≡ refusal frames numbers.now times room }
{
    let few = (frames <= MOST) & (numbers.len() <= MOST as usize);
    let equal = (times == numbers.len()) & (room == frames as usize);
    if !few {
        return Err(Refusal::PlayoutLimit);
    }
    let numbered = below(frames, numbers);
    if !numbered {
        return Err(Refusal::ArrivalNumber);
    }
    if !equal {
        return Err(Refusal::OutputLength);
    }
    Ok(())
}

// Which frames are played at this depth: a kind for each, 0 voice or 3 lost, and how many are lost. Refusals 20, 21, 7, which leave the kinds as they were.
pub fn playout(
    frames: u32,
    start: u32,
    depth: u32,
    numbers: &[u32],
    times: &[u32],
    out: &mut [u32],
) -> Result<u32, Refusal>
    ensures { Answer.answer (numbered result) out.new ≡ playout frames start depth numbers.now times.now out.old }
{
    check(frames, numbers, times.len(), out.len())?;
    kinds(start, depth, numbers, times, out);
    let n = lost(out);
    Ok(n as u32)
}

// Whether at most so many frames are lost at this depth, whose kinds are written.
fn enough(
    start: u32,
    depth: u32,
    allowed: usize,
    numbers: &[u32],
    times: &[u32],
    out: &mut [u32],
) -> bool
    ensures { (result ≡ enough start allowed (arrivals numbers.now times.now) (length out.old) depth) × (out.new ≡ kinds start depth (arrivals numbers.now times.now) (length out.old)) }
{
    kinds(start, depth, numbers, times, out);
    lost(out) <= allowed
}

// The half in which the least depth is, by what was found at the middle.
fn half(b: Between, middle: u32, enough: bool) -> Between
    requires { middle < b.high }
    ensures { result ≡ half b middle enough }
{
    if enough {
        return Between {
            low: b.low,
            high: middle,
        };
    }
    Between {
        low: middle + 1,
        high: b.high,
    }
}

// The least depth at which at most so many frames are lost; the kinds are then those of that depth, and where there is none those of the greatest depth. A greater depth never loses more, so
// that halving finds it.
pub fn least(
    start: u32,
    allowed: usize,
    numbers: &[u32],
    times: &[u32],
    out: &mut [u32],
) -> Option<u32>
    ensures { Answer.answer result out.new ≡ least start allowed (arrivals numbers.now times.now) (length out.old) }
{
    if !enough(start, DEEPEST, allowed, numbers, times, out) {
        return None;
    }
    let mut b = Between {
        low: 0,
        high: DEEPEST,
    };
    // Halving has no number of turns to go over, so this is no `for`.
    while b.low < b.high {
        let middle = b.low + (b.high - b.low) / 2;
        let found = enough(start, middle, allowed, numbers, times, out);
        b = half(b, middle, found);
    }
    kinds(start, b.high, numbers, times, out);
    Some(b.high)
}
