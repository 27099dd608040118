// A resumed call, a part at a time: whether it is the job's call, where it is read from and its forms go, how many lines a part has, and what is asked for. The files are the program's.
ghost use Rattle.std.specs.Prelude.{◌≡◌, ◌+◌, ◌-◌, ◌*◌, ◌≤◌, min, length};
ghost use Rattle.refusal.specs.Refusal.{code};
ghost use Rattle.job.specs.Part.{position, read_again, call_check, progress, Answer, part, wanted};

use crate::Saved;
use line_step::Progress;
use refusal::Refusal;

// A part's answer, with the code of line_step's Progress: 0 while the call goes on, else the number of the refusal that ended it; where the job goes on behind the lines taken,
// how many bytes they print, and how many lines may follow.
#[derive(Clone, Copy)]
pub struct Decoded {
    pub code: u32,
    pub place: Saved,
    pub written: usize,
    pub left: u32,
}

// What is read again of a call before its job goes on: the CRC-32 of the bytes so far, and how many are left of those that were taken.
#[derive(Clone, Copy)]
pub struct Again {
    pub sum: u32,
    pub left: u64,
}

// No call has as many frames.
pub const ALL: u32 = 4294967295;

// The output that a part is lent: room for 1,000 frames.
pub const ROOM: usize = 1000 * print::FRAME_ROOM;

// A place in a file, for `pread` and `pwrite`.
pub fn position(at: u64) -> i64
    ensures { result ≡ position at }
{
    at.min(9223372036854775807) as i64
}

// One read more of the call, from its beginning on.
pub fn read_again(a: Again, bytes: &[u8]) -> Again
    ensures { result ≡ read_again a bytes.now }
{
    let n = a.left.min(bytes.len() as u64);
    Again {
        sum: crc32::more(a.sum, &bytes[0..n as usize]),
        left: a.left - n,
    }
}

// Whether this is the call that the job was begun with; 26 where it is shorter than what was taken of that, or has other bytes there.
pub fn call_check(p: Saved, a: Again) -> Result<(), Refusal>
    ensures { code result ≡ call_check p a }
{
    let same = (a.left == 0) & (a.sum == p.call);
    if same {
        Ok(())
    } else {
        Err(Refusal::OtherCall)
    }
}

// How far the call of a job is, with this code.
pub fn progress_of(p: Saved, code: u32) -> Progress
    ensures { result ≡ progress p code }
{
    Progress {
        code,
        lines: p.lines,
        counts: p.counts,
    }
}

// Decodes the whole lines at the front of `input`, the call's text from `p.at` on, at most `most` of them and as many as `out` has room for. What they
// print is at the front of `out`.
pub fn part(t: &[i16], b: &mut [i16], p: Saved, most: u32, input: &[u8], out: &mut [u8]) -> Decoded
    ensures out_after { Answer.answer b.new result.code result.place result.written result.left out.new ≡ part t.now b.old p most input.now out.old }
    ensures written_in_bounds { result.written ≤ length out.old }
{
    let taken = call::lines(t, b, progress_of(p, 0), most, input, out);
    let job = taken.job;
    let used = taken.used;
    let written = taken.written;
    let place = Saved {
        counts: job.counts,
        lines: job.lines,
        at: p.at.wrapping_add(used as u64),
        written: p.written.wrapping_add(written as u64),
        call: crc32::more(p.call, &input[0..used]),
        ..p
    };
    Decoded {
        code: job.code,
        place,
        written,
        left: most - (job.lines - p.lines),
    }
}

// One digit more.
fn further(n: u32, b: u8) -> u32
    requires { 48 ≤ b }
    ensures { result ≡ min (10 * n + (b - 48)) 4294967295 }
{
    n.saturating_mul(10).saturating_add(u32::from(b - 48))
}

// The number of frames that is asked for, ALL at most; none where it is no decimal number.
pub fn wanted(text: &[u8]) -> Option<u32>
    ensures { result ≡ wanted text.now }
{
    if text.is_empty() {
        return None;
    }
    let mut n = 0u32;
    for b in text {
        if !b.is_ascii_digit() {
            return None;
        }
        n = further(n, *b);
    }
    Some(n)
}
