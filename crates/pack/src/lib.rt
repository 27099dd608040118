// A voice frame written from its fields (G.729 Table 8), the opposite of `bitstream`: fifteen numbers, or fourteen and the parity bit that is due, to ten bytes, highest bit first.
#![tactic(auto)]

ghost use Rattle.std.specs.Prelude.{◌≡◌, [], ◌∷◌, ◌++◌, ◌+◌, ◌*◌, ◌^◌, ◌≤◌, ◌<◌, length, get_or, take, drop};
ghost use Rattle.bitstream.specs.Fields.{bits, widths, cut, Answer};
ghost use Rattle.refusal.specs.Refusal.{code};
ghost use Rattle.pack.specs.Pack.{joined, fits, octets, parity_bit, packed, write_fields, write_fields_parity};
ghost use Rattle.pack.specs.Laws.{listed, cells, lengths};

use bitstream::SpeechParams;
use refusal::Refusal;

// Whether no field exceeds its width.
fn fits(p: SpeechParams) -> bool
    ensures { result ≡ fits widths (listed p) }
{
    (p.l0 < 2)
        & (p.l1 < 128)
        & (p.l2 < 32)
        & (p.l3 < 32)
        & (p.p1 < 256)
        & (p.p0 < 2)
        & (p.c1 < 8192)
        & (p.s1 < 16)
        & (p.ga1 < 8)
        & (p.gb1 < 16)
        & (p.p2 < 32)
        & (p.c2 < 8192)
        & (p.s2 < 16)
        & (p.ga2 < 8)
        & (p.gb2 < 16)
}

// The first 40 bits of a frame as one number. No field crosses the middle.
fn first_half(l0: u16, l1: u16, l2: u16, l3: u16, p1: u16, p0: u16, c1: u16) -> u64
    ensures { result ≡ joined (take 7 widths) (l0 ∷ l1 ∷ l2 ∷ l3 ∷ p1 ∷ p0 ∷ c1 ∷ []) }
{
    let l = ((l0 as u64 * 128 + l1 as u64) * 32 + l2 as u64) * 32 + l3 as u64;
    ((l * 256 + p1 as u64) * 2 + p0 as u64) * 8192 + c1 as u64
}

// The other 40 bits.
fn second_half(s1: u16, ga1: u16, gb1: u16, p2: u16, c2: u16, s2: u16, ga2: u16, gb2: u16) -> u64
    ensures { result ≡ joined (drop 7 widths) (s1 ∷ ga1 ∷ gb1 ∷ p2 ∷ c2 ∷ s2 ∷ ga2 ∷ gb2 ∷ []) }
{
    let a = ((s1 as u64 * 8 + ga1 as u64) * 16 + gb1 as u64) * 32 + p2 as u64;
    (((a * 8192 + c2 as u64) * 16 + s2 as u64) * 8 + ga2 as u64) * 16 + gb2 as u64
}

// The eight bits of `x` that lie above its `low` lowest.
fn octet(x: u64, low: u32) -> u8
    requires { low < 40 }
    ensures { result ≡ bits x low 8 }
{
    ((x >> low) % 256) as u8
}

// Two halves of 40 bits as ten bytes.
fn bytes_of(a: u64, b: u64) -> [u8; 10]
    requires { b < 2 ^ 40 }
    ensures { result ≡ cut (octets 10) (a * 2 ^ 40 + b) }
{
    [
        octet(a, 32),
        octet(a, 24),
        octet(a, 16),
        octet(a, 8),
        octet(a, 0),
        octet(b, 32),
        octet(b, 24),
        octet(b, 16),
        octet(b, 8),
        octet(b, 0),
    ]
}

// The frame of fields that fit goes to ten bytes. Refusal 15.
fn packed(p: SpeechParams, bytes: &mut [u8]) -> Result<(), Refusal>
    requires { length bytes.old ≡ 10 }
    ensures { Answer.answer (code result) bytes.new ≡ packed (listed p) bytes.old }
{
    if !fits(p) {
        return Err(Refusal::FieldWidth);
    }
    let a = first_half(p.l0, p.l1, p.l2, p.l3, p.p1, p.p0, p.c1);
    let b = second_half(p.s1, p.ga1, p.gb1, p.p2, p.c2, p.s2, p.ga2, p.gb2);
    bytes.copy_from_slice(&bytes_of(a, b));
    Ok(())
}

// What both calls refuse before they look at any field: 8 where `n` fields are lent and not `due`, 6 where there are not ten bytes.
fn lengths(n: usize, due: usize, bytes: usize) -> Result<(), Refusal>
    ensures { code result ≡ lengths n due bytes }
{
    if n != due {
        return Err(Refusal::ReceiverLength);
    }
    if bytes != 10 {
        return Err(Refusal::PayloadLength);
    }
    Ok(())
}

// Field `k` of a list; 0 past its end.
fn field(fields: &[u16], k: usize) -> u16
    ensures { result ≡ get_or fields.now k 0 }
{
    fields.get(k).copied().unwrap_or(0)
}

// The struct of fields lent in the order of their bits, with this P0; those behind it stand from place `behind` on.
fn params(fields: &[u16], p0: u16, behind: usize) -> SpeechParams
    requires { behind ≤ 6 }
    ensures { listed result ≡ cells 5 0 fields.now ++ (p0 ∷ cells 9 behind fields.now) }
{
    SpeechParams {
        l0: field(fields, 0),
        l1: field(fields, 1),
        l2: field(fields, 2),
        l3: field(fields, 3),
        p1: field(fields, 4),
        p0: p0,
        c1: field(fields, behind),
        s1: field(fields, behind + 1),
        ga1: field(fields, behind + 2),
        gb1: field(fields, behind + 3),
        p2: field(fields, behind + 4),
        c2: field(fields, behind + 5),
        s2: field(fields, behind + 6),
        ga2: field(fields, behind + 7),
        gb2: field(fields, behind + 8),
    }
}

// Writes a frame from fifteen fields, in the order of their bits. Refusals 8, 6, 15. The lengths are tested before a field is read, here and below, so
// that a list of another length is never read: one function for both, to which P0 is handed, would read it first.
pub fn write_fields(fields: &[u16], bytes: &mut [u8]) -> Result<(), Refusal>
    ensures { Answer.answer (code result) bytes.new ≡ write_fields fields.now bytes.old }
{
    lengths(fields.len(), 15, bytes.len())?;
    packed(params(fields, field(fields, 5), 6), bytes)
}

// Clause 3.7.2: the P0 with which P1 passes parity.
fn parity_bit(p1: u16) -> u16
    ensures { result ≡ parity_bit p1 }
{
    if pitch::parity_ok(p1, 0) { 0 } else { 1 }
}

// Writes a frame from fourteen fields: P0 is left out, and supplied so that parity passes. Refusals 8, 6, 15.
pub fn write_fields_parity(fields: &[u16], bytes: &mut [u8]) -> Result<(), Refusal>
    ensures { Answer.answer (code result) bytes.new ≡ write_fields_parity fields.now bytes.old }
{
    lengths(fields.len(), 14, bytes.len())?;
    packed(params(fields, parity_bit(field(fields, 4)), 5), bytes)
}
