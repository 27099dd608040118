// The fields of a voice frame (G.729 Table 8): ten bytes, highest bit first, to fifteen numbers.
#![tactic(auto)]

ghost use Rattle.std.specs.Prelude.{◌≡◌, ◌^◌, ◌<◌, ◌≤◌, length, get_or, drop};
ghost use Rattle.refusal.specs.Refusal.{code};
ghost use Rattle.bitstream.specs.Fields.{number, bits, unpack, Answer, fields_call};

use refusal::Refusal;

// The fifteen numbers of Table 8, in the order of their bits.
#[derive(Clone, Copy)]
pub struct SpeechParams {
    // Line spectral frequencies: predictor and three codebook indices (1, 7, 5, 5 bits).
    pub l0: u16,
    pub l1: u16,
    pub l2: u16,
    pub l3: u16,
    // First subframe: delay and its parity (8, 1), code positions and signs (13, 4), gain indices (3, 4).
    pub p1: u16,
    pub p0: u16,
    pub c1: u16,
    pub s1: u16,
    pub ga1: u16,
    pub gb1: u16,
    // Second subframe: relative delay (5), then as in the first.
    pub p2: u16,
    pub c2: u16,
    pub s2: u16,
    pub ga2: u16,
    pub gb2: u16,
}

// Byte `k` of a frame; 0 past its end.
fn byte(frame: &[u8], k: usize) -> u64
    ensures { (result ≡ get_or frame.now k 0) × (result < 256) }
{
    frame.get(k).map_or(0, |b| *b as u64)
}

// The five bytes from byte `k` on as one number, the first byte highest.
fn half(frame: &[u8], k: usize) -> u64
    requires { k ≤ 5 }
    ensures { (result ≡ number (drop k frame.now) 5) × (result < 2 ^ 40) }
{
    let b0 = byte(frame, k);
    let b1 = byte(frame, k + 1);
    let b2 = byte(frame, k + 2);
    let b3 = byte(frame, k + 3);
    let b4 = byte(frame, k + 4);
    (((b0 * 256 + b1) * 256 + b2) * 256 + b3) * 256 + b4
}

// The `width` bits of `x` that lie above its `low` lowest.
fn field(x: u64, low: u32, width: u32) -> u16
    requires { (low < 40) × (width < 16) }
    ensures { result ≡ bits x low width }
{
    ((x >> low) % (1 << width)) as u16
}

// The fields of a frame. No field crosses the middle, so each is read from one half of 40 bits.
pub fn unpack(frame: &[u8]) -> SpeechParams
    ensures { result ≡ unpack frame.now }
{
    let a = half(frame, 0);
    let b = half(frame, 5);
    SpeechParams {
        l0: field(a, 39, 1),
        l1: field(a, 32, 7),
        l2: field(a, 27, 5),
        l3: field(a, 22, 5),
        p1: field(a, 14, 8),
        p0: field(a, 13, 1),
        c1: field(a, 0, 13),
        s1: field(b, 36, 4),
        ga1: field(b, 33, 3),
        gb1: field(b, 29, 4),
        p2: field(b, 24, 5),
        c2: field(b, 11, 13),
        s2: field(b, 7, 4),
        ga2: field(b, 4, 3),
        gb2: field(b, 0, 4),
    }
}

// The operation Fields: 6 where there are not ten bytes, 8 where the receiver is not fifteen numbers, both of which leave the
// receiver as it was; else the receiver has the fields.
pub fn fields(bytes: &[u8], receiver: &mut [u16]) -> Result<(), Refusal>
    ensures { Answer.answer (code result) receiver.new ≡ fields_call bytes.now receiver.old }
{
    if bytes.len() != 10 {
        return Err(Refusal::PayloadLength);
    }
    if receiver.len() != 15 {
        return Err(Refusal::ReceiverLength);
    }
    let p = unpack(bytes);
    receiver.copy_from_slice(&[
        p.l0, p.l1, p.l2, p.l3, p.p1, p.p0, p.c1, p.s1, p.ga1, p.gb1, p.p2, p.c2, p.s2, p.ga2,
        p.gb2,
    ]);
    Ok(())
}
