// RTP payloads of G.729 (RFC 3551, section 4.5.6; `split_rtp` of bitstream.rs): voice frames of ten bytes each, then at most one SID frame of two. A frame is handed out as
// the part of the caller's payload that it occupies; nothing is copied. 12: the length leaves a remainder other than 0 or 2 by ten. 13: the index isn't below the number of frames.
// The operations are `frames` and `frame`; crates above call `find` and `part`, since a struct that holds a reference asks a proof by hand of its caller.
#![tactic(auto)]

ghost use Rattle.std.specs.Prelude.{◌≡◌, length};
ghost use Rattle.rtp.specs.Rtp.{frames, find, part, place, Answer, frame};

// 0 or the number of the refusal, and how many frames a payload has; 0 beside a refusal. This and the next are returned to C, so that they have a code and are no Result.
#[repr(C)]
#[derive(Clone, Copy)]
pub struct FrameCount {
    pub code: u32,
    pub frames: usize,
}

// 0 or the number of the refusal; the kind of a frame, 0 voice or 1 SID, and the part of the payload that it occupies. All are 0 beside a refusal: the part is empty.
#[repr(C)]
#[derive(Clone, Copy)]
pub struct FramePart {
    pub code: u32,
    pub kind: u32,
    pub start: usize,
    pub length: usize,
}

// The same with the part itself.
#[derive(Clone, Copy)]
pub struct PayloadFrame<'a> {
    pub code: u32,
    pub kind: u32,
    pub bytes: &'a [u8],
}

// The number of frames of a payload of n bytes. Refusal 12.
pub fn frames_of(n: usize) -> FrameCount
    ensures { result ≡ frames n }
{
    let rest = n % 10;
    if rest == 0 {
        return FrameCount {
            code: 0,
            frames: n / 10,
        };
    }
    if rest == 2 {
        return FrameCount {
            code: 0,
            frames: n / 10 + 1,
        };
    }
    FrameCount {
        code: 12,
        frames: 0,
    }
}

// No frame.
fn refused(code: u32) -> FramePart
    ensures { result ≡ record { code = code; kind = 0; start = 0; length = 0 } }
{
    FramePart {
        code,
        kind: 0,
        start: 0,
        length: 0,
    }
}

// Frame `index` of a payload of n bytes. Refusals 12, 13. Its place is computed behind both tests, so no index overflows.
pub fn find_of(n: usize, index: usize) -> FramePart
    ensures { result ≡ find n index }
{
    let counted = frames_of(n);
    if counted.code != 0 {
        return refused(counted.code);
    }
    if counted.frames <= index {
        return refused(13);
    }
    let start = 10 * index;
    if index < n / 10 {
        return FramePart {
            code: 0,
            kind: 0,
            start,
            length: 10,
        };
    }
    FramePart {
        code: 0,
        kind: 1,
        start,
        length: 2,
    }
}

// The number of frames of a payload. Refusal 12.
pub fn frames(payload: &[u8]) -> FrameCount
    ensures { result ≡ frames (length payload.now) }
{
    frames_of(payload.len())
}

// The kind of frame `index` of a payload, and where it lies. Refusals 12, 13.
pub fn find(payload: &[u8], index: usize) -> FramePart
    ensures { result ≡ find (length payload.now) index }
{
    find_of(payload.len(), index)
}

// The part of the payload that frame `index` occupies, by its bytes and by its place in memory; an empty one where `find` refuses.
pub fn part(payload: &[u8], index: usize) -> &[u8]
    ensures { (result.now ≡ part payload.now index) × (result.ref_ptr ≡ place payload.entry.ref_ptr (length payload.now) index) }
{
    let found = find(payload, index);
    let start = found.start;
    let end = start + found.length;
    &payload[start..end]
}

// Frame `index` of a payload: its kind, and the part that it occupies. Refusals 12, 13.
pub fn frame<'a>(payload: &'a [u8], index: usize) -> PayloadFrame<'a>
    ensures { Answer.answer result.code result.kind result.bytes.now result.bytes.ref_ptr ≡ frame payload.entry.ref_ptr payload.now index }
{
    let found = find(payload, index);
    let bytes = part(payload, index);
    PayloadFrame {
        code: found.code,
        kind: found.kind,
        bytes,
    }
}
