// A file that is read through a lent buffer: all its bytes, or the samples of a WAV file. No contract can say what is read; they say that what is at hand is inside of the buffer.
#![tactic(auto)]

ghost use Rattle.std.specs.Prelude.{◌≡◌, ◌-◌, ◌≤◌, length};
ghost use Rattle.source.specs.Source.{Inside, raw, used, cut};

use files::Input;
use wav::{Fault, Found};

// The bytes of a buffer, in which the header of a WAV file must be.
pub const ROOM: usize = 65536;

// More bytes than a file has, and than a WAV file can say that it has.
const ALL: u64 = 18446744073709551615;

const LONGEST: u64 = 4294967296;

// The place of the first byte in the buffer that is not used and the one behind the last, whether the file has ended, whether it could be read, and how many bytes of it may still be read.
#[derive(Clone, Copy)]
pub struct Source {
    pub from: usize,
    pub to: usize,
    pub ended: bool,
    pub good: bool,
    pub left: u64,
}

// A file before its first read.
pub fn unread() -> Source
    ensures { (result ≡ raw 0) × Inside result 0 }
{
    raw(0)
}

// A file of which n bytes are at hand.
#[tactic(auto, unfolding(crate::specs::Source::raw))]
pub fn raw(n: usize) -> Source
    ensures { (result ≡ raw n) × Inside result n }
{
    Source {
        from: 0,
        to: n,
        ended: false,
        good: true,
        left: ALL,
    }
}

// The end of what may be read behind the bytes held.
fn limit(held: usize, room: usize, left: u64) -> usize
    requires { held ≤ room }
    ensures { (held ≤ result) × (result ≤ room) }
{
    let free = room - held;
    held + left.min(free as u64) as usize
}

// One read: the bytes that are not used move to the front, and others come behind them.
pub fn fill(rt: &HostRuntime, from: &Input, name: &[u8], s: Source, input: &mut [u8]) -> Source
    ensures { Inside result (length input.old) }
{
    let held = call::keep(input, s.from, s.to);
    let end = limit(held, input.len(), s.left);
    let got = files::or_tell(rt, name, from.read(&mut input[held..end]));
    let bytes = got.unwrap_or(0);
    Source {
        from: 0,
        to: held + bytes,
        ended: bytes == 0,
        good: got.is_ok(),
        left: s.left.saturating_sub(bytes as u64),
    }
}

// The same file, with more bytes used.
#[tactic(auto, unfolding(crate::specs::Source::used))]
pub fn used(s: Source, bytes: usize) -> Source
    requires { (s.from ≤ s.to) × (bytes ≤ s.to - s.from) }
    ensures { (result ≡ used s bytes) × Inside result s.to }
{
    Source {
        from: s.from + bytes,
        ..s
    }
}

// Whether a file that has ended is shorter than it says: of one whose length isn't known nearly all that a file could have is left.
#[tactic(auto, unfolding(crate::specs::Source::cut))]
pub fn cut(s: Source) -> bool
    ensures { result ≡ cut s }
{
    (0 < s.left) & (s.left < LONGEST)
}

// What is at hand of a WAV file behind its header. One whose length was not known when it was begun says 0, and goes to its end.
fn samples(h: Found, n: usize) -> Source
    requires { h.from ≤ n }
    ensures { Inside result n }
{
    let from = h.from;
    let held = n - from;
    let mut bytes = h.bytes;
    if bytes == 0 {
        bytes = ALL;
    }
    if bytes < held as u64 {
        return Source {
            from,
            to: from + bytes as usize,
            ended: false,
            good: true,
            left: 0,
        };
    }
    Source {
        from,
        to: n,
        ended: false,
        good: true,
        left: bytes - held as u64,
    }
}

// Why the samples of a WAV file can't be taken, in words; `wanted` says which can.
fn why(rt: &HostRuntime, name: &[u8], fault: Fault, wanted: &[u8]) {
    if fault == Fault::NoWave {
        files::say(rt, name, b"begins with RIFF, but is no WAV file");
    } else if fault == Fault::NoData {
        files::say(
            rt,
            name,
            b"no chunk `data` in the first 65,536 bytes of this WAV file, or behind more than 64 others",
        );
    } else if fault == Fault::NoFormat {
        files::say(
            rt,
            name,
            b"no chunk `fmt ` before the samples of this WAV file",
        );
    } else if fault == Fault::NotMono {
        files::say(
            rt,
            name,
            b"a WAV file of more than one channel: give one channel alone",
        );
    } else if fault == Fault::Not8000 {
        files::say(
            rt,
            name,
            b"a WAV file whose rate is not 8,000 samples a second",
        );
    } else {
        files::tell(rt, name);
        files::tell(rt, b": a WAV file whose samples are not ");
        files::tell(rt, wanted);
        files::tell(rt, b"\n");
    }
}

// The samples at hand of a WAV file that begins with these bytes, if they have this format tag and so many bits each. Not good, with the reason on standard error, where it is of another kind.
pub fn wave(
    rt: &HostRuntime,
    name: &[u8],
    bytes: &[u8],
    tag: u32,
    bits: u32,
    wanted: &[u8],
) -> Source
    ensures { Inside result (length bytes.now) }
{
    match wav::look(bytes, tag, bits) {
        Ok(found) => samples(found, bytes.len()),
        Err(fault) => {
            why(rt, name, fault, wanted);
            Source {
                from: 0,
                to: 0,
                ended: true,
                good: false,
                left: 0,
            }
        }
    }
}
