// WAV files ("Multimedia Programming Interface and Data Specifications 1.0", RIFF; RFC 2361 names the format tags): chunks of a name of four bytes, a length of four and so many
// bytes, of which `fmt ` tells the form of the samples and `data` has them. Where the samples of one are, and the header of a new one.
#![tactic(auto)]

ghost use Rattle.std.specs.Prelude.{◌≡◌, ◌+◌, ◌≤◌, length, IfOk, IfSome};
ghost use Rattle.wav.specs.Wav.{field, behind, named, Inside, next, last, fault, samples, look, count, header};

use text::starts;

// Format tags: linear samples, A-law, mu-law. Numbers and no enum: `look` and `header` take any tag of a WAV file.
pub const PCM: u32 = 1;

pub const A_LAW: u32 = 6;

pub const MU_LAW: u32 = 7;

// The bytes of a header that is written, and the most bytes of samples behind it, with which the length of the file still fits its four bytes.
pub const HEADER: usize = 58;

pub const MOST: u32 = 4294967244;

// Why the samples of a file can't be taken: it is no WAV file, has no samples, no format in front of them, another format than the one asked for, or more than one channel, or a rate other than 8,000 samples a second, or other bits a sample.
#[derive(Clone, Copy, Debug, PartialEq, Eq)]
pub enum Fault {
    NoWave,
    NoData,
    NoFormat,
    OtherFormat,
    NotMono,
    Not8000,
    OtherBits,
}

// How many chunks are passed at most.
const CHUNKS: u32 = 64;

// What is found in a file: the place of the first sample, and how many bytes the samples have.
#[derive(Clone, Copy)]
pub struct Found {
    pub from: usize,
    pub bytes: u64,
}

// Where a header is looked at: the place of a chunk, and that of the format, once it was met.
#[derive(Clone, Copy)]
pub struct Place {
    pub at: usize,
    pub format: Option<usize>,
}

// The number of `n` bytes at a place, low byte first.
fn field(bytes: &[u8], at: usize, n: usize) -> u64
    requires { at + n ≤ length bytes.now }
    ensures { result ≡ field bytes.now at n }
{
    words::number(&bytes[at..at + n])
}

// The place behind so many bytes, and one more where they are odd; the end, where they reach behind it.
fn behind(at: usize, size: u64, end: usize) -> usize
    requires { at ≤ end }
    ensures { (result ≡ behind at size end) × (result ≤ end) }
{
    let left = end - at;
    if left as u64 <= size {
        return end;
    }
    at + size as usize + (size % 2) as usize
}

// Whether a whole head of a chunk of this name is at a place.
fn named(bytes: &[u8], at: usize, name: &[u8; 4]) -> bool
    requires { at ≤ length bytes.now }
    ensures { result ≡ named name.now bytes.now at }
{
    if bytes.len() - at < 8 {
        return false;
    }
    starts(&bytes[at..], name)
}

// The chunk behind the one at a place. That of the samples is not left, nor one without a whole head.
fn next(bytes: &[u8], p: Place) -> Place
    requires { Inside bytes.now p }
    ensures { (result ≡ next bytes.now p) × Inside bytes.now result }
{
    let at = p.at;
    if bytes.len() - at < 8 {
        return p;
    }
    if named(bytes, at, b"data") {
        return p;
    }
    let to = behind(at + 8, field(bytes, at + 4, 4), bytes.len());
    if named(bytes, at, b"fmt ") {
        return Place {
            at: to,
            format: Some(at + 8),
        };
    }
    Place {
        at: to,
        format: p.format,
    }
}

// The chunk of the samples, or where none follows.
fn last(bytes: &[u8]) -> Place
    requires { 12 ≤ length bytes.now }
    ensures { (result ≡ last bytes.now) × Inside bytes.now result }
{
    let mut p = Place {
        at: 12,
        format: None,
    };
    for _ in 0..CHUNKS {
        p = next(bytes, p);
    }
    p
}

// Whether samples of the format at a place can be taken, where this tag and so many bits a sample are asked for.
fn check_format(bytes: &[u8], format: Option<usize>, tag: u32, bits: u32) -> Result<(), Fault>
    requires { IfSome format (λ at. at ≤ length bytes.now) }
    ensures { result ≡ fault bytes.now format tag bits }
{
    let Some(at) = format else {
        return Err(Fault::NoFormat);
    };
    if bytes.len() - at < 16 {
        return Err(Fault::NoFormat);
    }
    if field(bytes, at, 2) != tag as u64 {
        return Err(Fault::OtherFormat);
    }
    if field(bytes, at + 2, 2) != 1 {
        return Err(Fault::NotMono);
    }
    if field(bytes, at + 4, 4) != 8000 {
        return Err(Fault::Not8000);
    }
    if field(bytes, at + 14, 2) != bits as u64 {
        return Err(Fault::OtherBits);
    }
    Ok(())
}

// The samples of the chunk at a place.
fn samples(bytes: &[u8], p: Place, tag: u32, bits: u32) -> Result<Found, Fault>
    requires { Inside bytes.now p }
    ensures { (result ≡ samples bytes.now p tag bits) × IfOk result (λ h. h.from ≤ length bytes.now) }
{
    let at = p.at;
    if !named(bytes, at, b"data") {
        return Err(Fault::NoData);
    }
    check_format(bytes, p.format, tag, bits)?;
    Ok(Found {
        from: at + 8,
        bytes: field(bytes, at + 4, 4),
    })
}

// Where the samples of a WAV file are, whose first bytes these are, `RIFF` in front, or why they can't be taken: they must have this format tag and so many bits each, be of one channel and 8,000 a second.
pub fn look(bytes: &[u8], tag: u32, bits: u32) -> Result<Found, Fault>
    ensures { (result ≡ look bytes.now tag bits) × IfOk result (λ h. h.from ≤ length bytes.now) }
{
    if bytes.len() < 12 {
        return Err(Fault::NoWave);
    }
    if !starts(&bytes[8..], b"WAVE") {
        return Err(Fault::NoWave);
    }
    samples(bytes, last(bytes), tag, bits)
}

// Names of chunks and what a file begins with, as numbers of four bytes.
const RIFF: u64 = 0x46464952;

const WAVE: u64 = 0x45564157;

const FMT: u64 = 0x20746d66;

const FACT: u64 = 0x74636166;

const DATA: u64 = 0x61746164;

// How many bytes each number of a header has.
const WIDTHS: [usize; 17] = [4, 4, 4, 4, 4, 2, 2, 4, 4, 2, 2, 2, 4, 4, 4, 4, 4];

// How many samples of so many bytes each there are in `size` bytes; 0 where a sample has none.
fn count(size: u64, each: u64) -> u64
    ensures { result ≡ count size each }
{
    if each == 0 {
        return 0;
    }
    size / each
}

// The header of a WAV file of one channel, 8,000 samples a second, with this format tag, so many bits a sample and `size` bytes of samples. The length of the file counts the byte that
// follows an odd number of them. Of a number that doesn't fit its bytes the lowest ones are written; with A-law, mu-law and linear samples of 16 bits and up to MOST bytes each fits.
pub fn header(tag: u32, bits: u32, size: u32, out: &mut [u8; HEADER])
    ensures { out.new ≡ header tag bits size }
{
    let n = size as u64;
    let each = (bits / 8) as u64;
    let widths = WIDTHS;
    let values = [
        RIFF,
        50 + n + n % 2,
        WAVE,
        FMT,
        18,
        tag as u64,
        1,
        8000,
        8000 * each,
        each,
        bits as u64,
        0,
        FACT,
        4,
        count(n, each),
        DATA,
        n,
    ];
    words::put_numbers(&widths, &values, out);
}
