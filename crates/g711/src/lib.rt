// G.711: A-law and mu-law bytes as samples of 16 bits, from stored tables, and samples back to bytes (change request 8; ITU-T G.711).
#![tactic(auto)]

ghost use Rattle.std.specs.Prelude.{◌≡◌, map, ◌+◌, ◌≤◌, ◌<◌, nat_abs, length, IfOk};
ghost use Rattle.refusal.specs.Refusal.{code};
ghost use Rattle.g711.specs.G711.{value, refusal, Read, Written, read_call, write_call};
ghost use Rattle.g711.specs.Law.{number, Names};
ghost use Rattle.g711.specs.Laws.{Meets, Expanded};
ghost use Rattle.g711.specs.Fast.{form, lifted, sized, lowest, fault, faults, leading, sign_bit, segment_less, found_byte};

mod tables;

use refusal::Refusal;
use tables::{A_LAW, MU_LAW};

// The laws.
#[derive(Clone, Copy, Debug, PartialEq, Eq)]
pub enum Law {
    A,
    Mu,
}

// Their numbers in the calls: C gives them, and any other number is refused.
pub const A: u32 = 1;

pub const MU: u32 = 2;

// The law of a number. Refusal 16.
impl TryFrom<u32> for Law {
    type Error = Refusal;

    ghost try_from_gives = { Names };

    fn try_from(law: u32) -> Result<Self, Refusal> {
        match law {
            1 => Ok(Law::A),
            2 => Ok(Law::Mu),
            _ => Err(Refusal::OtherLaw),
        }
    }
}

// The number of a law.
impl From<Law> for u32 {
    ghost from_gives = { λ law n. n ≡ number law };

    fn from(law: Law) -> Self {
        match law {
            Law::A => A,
            Law::Mu => MU,
        }
    }
}

// The law, and what both calls refuse before they look at a byte or a sample: 16 another law, 7 not as many samples as bytes.
fn checked(law: u32, bytes: usize, samples: usize) -> Result<Law, Refusal>
    ensures refused { code result ≡ refusal law bytes samples }
    ensures named { IfOk result (λ l. number l ≡ law) }
{
    let Ok(law) = Law::try_from(law) else {
        return Err(Refusal::OtherLaw);
    };
    if bytes != samples {
        return Err(Refusal::OutputLength);
    }
    Ok(law)
}

// ---- bytes to samples

// The samples of bytes by a table, of which each entry is what a rule gives.
fn expand(t: &[i16; 256], bytes: &[u8], samples: &mut [i16])
    requires { length bytes.now ≡ length samples.old }
    ensures { Expanded t.now bytes.now samples.new }
{
    for (i, b) in bytes.iter().enumerate() {
        samples[i] = t[*b as usize];
    }
}

// The samples of a law's bytes. Refusals 16, 7. The law is a number, as 02 has the call: any other is refused with 16.
pub fn read(law: u32, bytes: &[u8], samples: &mut [i16]) -> Result<(), Refusal>
    ensures { Read.read (code result) samples.new ≡ read_call law bytes.now samples.old }
{
    let law = checked(law, bytes.len(), samples.len())?;
    expand(law.table(), bytes, samples);
    Ok(())
}

// ---- samples to bytes

// What writing needs of a law: what is added to a sample's size, so that the segments begin at powers of two; the size below which 256 more are added, as A-law's first segment has the
// steps of the second; and what the bits of a byte are flipped by.
#[derive(Clone, Copy)]
struct Form {
    bias: u8,
    lift: u16,
    flips: u8,
}

impl Law {
    // The sample of each byte.
    fn table(self) -> &'static [i16; 256]
        ensures { Meets (value (number self)) result.now }
    {
        match self {
            Law::A => &A_LAW,
            Law::Mu => &MU_LAW,
        }
    }

    fn form(self) -> Form
        ensures { result ≡ form (number self) }
    {
        match self {
            Law::A => Form {
                bias: 0,
                lift: 256,
                flips: 0xd5,
            },
            Law::Mu => Form {
                bias: 132,
                lift: 0,
                flips: 0xff,
            },
        }
    }
}

// A size below a limit with 256 added.
fn lifted(x: u16, limit: u16) -> u16
    requires { x ≤ 33023 }
    ensures { (result ≡ lifted x limit) × (result ≤ x + 256) }
{
    if x < limit { x + 256 } else { x }
}

// The lowest of a number's bits that is set; 0 of 0.
fn lowest(x: u16) -> u16
    ensures { result ≡ lowest x }
{
    if x == 0 {
        return 0;
    }
    x - (x & (x - 1))
}

// The exponent of a number and the first four bits of its fraction, as a float has them (IEEE 754, binary32): segment and step are these.
fn leading(x: u16) -> u16
    ensures { (result ≡ leading x) × (result < 8192) }
{
    ((x as f32).to_bits() >> 19) as u16
}

// The top bit of a byte, where a sample is negative.
fn sign_bit(z: i16) -> u8
    ensures { result ≡ sign_bit z }
{
    if z < 0 { 128 } else { 0 }
}

// 240, which is 16 less in a byte, where 256 were added.
fn segment_less(x: u16, limit: u16) -> u16
    ensures { (result ≡ segment_less x limit) × (result ≤ 240) }
{
    if x < limit { 240 } else { 0 }
}

impl Form {
    // A sample without its sign, and the bias.
    fn biased(self, z: i16) -> u16
        ensures { (result ≡ nat_abs z + self.bias) × (result ≤ 32768 + self.bias) }
    {
        z.unsigned_abs() + u16::from(self.bias)
    }

    // The size by which segment and step are told.
    fn sized(self, z: i16) -> u16
        ensures { (result ≡ sized self z) × (result ≤ 33024 + self.bias) }
    {
        lifted(self.biased(z), self.lift)
    }

    // 0 where a sample is a table value, else 1. The size of one has the highest bit of its segment, then four of its step, then one that is set, and none below.
    fn fault(self, z: i16) -> u16
        ensures { result ≡ fault self z }
    {
        let x = self.sized(z);
        let low = lowest(x);
        if ((x >> 6) < low) & (low <= (x >> 5)) {
            0
        } else {
            1
        }
    }

    // 0 where each sample is one. There is no early return, so that the compiler can take several at a time (docs/PERFORMANCE.md).
    fn faults(self, samples: &[i16]) -> u16
        ensures { result ≡ faults self samples.now (length samples.now) }
    {
        let mut found = 0u16;
        for z in samples {
            found |= self.fault(*z);
        }
        found
    }

    // The byte of a sample that has one. The exponent of 128, where the first segment begins, is 7, in a float 134; 16 · 134 + 160 is 0 in a byte.
    fn byte(self, z: i16) -> u8
        ensures { result ≡ found_byte self z }
    {
        let t = leading(self.sized(z)) + 160 + segment_less(self.biased(z), self.lift);
        (t % 256) as u8 ^ sign_bit(z) ^ self.flips
    }

    // The bytes of samples that have one each.
    fn compress(self, samples: &[i16], bytes: &mut [u8])
        requires { length samples.now ≡ length bytes.old }
        ensures { bytes.new ≡ map (found_byte self) samples.now }
    {
        for (i, z) in samples.iter().enumerate() {
            bytes[i] = self.byte(*z);
        }
    }
}

// The bytes of a law's samples. Every sample is looked at before the first byte is written. Refusals 16, 7, 17.
pub fn write(law: u32, samples: &[i16], bytes: &mut [u8]) -> Result<(), Refusal>
    ensures { Written.written (code result) bytes.new ≡ write_call law samples.now bytes.old }
{
    let law = checked(law, bytes.len(), samples.len())?;
    let form = law.form();
    if form.faults(samples) != 0 {
        return Err(Refusal::NoTableValue);
    }
    form.compress(samples, bytes);
    Ok(())
}
