// What each caller of a conference heard (change request 10): for each of 1 to 8 legs of 80 samples the sum of all the others, limited to 16 bits after the exact sum. It sees samples
// alone, so that legs from G.711 and from G.729 are mixed alike.
#![tactic(auto)]

ghost use Rattle.std.specs.Prelude.{◌≡◌, ◌+◌, ◌*◌, ◌%◌, ◌≤◌, nat_abs, ◌+ℤ◌, ◌-ℤ◌, length};
ghost use Rattle.std.proofs.Math.Seq.{paste};
ghost use Rattle.laws.specs.Lists.{at, tab};
ghost use Rattle.basic_op.specs.Ops.{sat16};
ghost use Rattle.refusal.specs.Refusal.{code};
ghost use Rattle.mix.specs.Mix.{sum, legs_of, mix, joined, refusal, Mixed, mix_call};
ghost use Rattle.mix.specs.Laws.{Within, SamplesAt};

use refusal::Refusal;

// The samples of a leg, and those of eight.
const FRAME: usize = 80;

const MOST: usize = 640;

// What is refused before a sample is looked at: 19 not 1 to 8 whole legs, 7 not as many results as samples.
fn check(legs: usize, heard: usize) -> Result<(), Refusal>
    ensures { code result ≡ refusal legs heard }
{
    let whole = (legs % FRAME == 0) & (FRAME <= legs) & (legs <= MOST);
    if !whole {
        return Err(Refusal::LegsLength);
    }
    if heard != legs {
        return Err(Refusal::OutputLength);
    }
    Ok(())
}

// A sum of up to seven samples and one more.
fn plus(sum: i32, sample: i16) -> i32
    requires { nat_abs sum ≤ 7 * 32768 }
    ensures { result ≡ sum +ℤ sample }
{
    sum + sample as i32
}

// A sum of up to eight samples without one, limited to 16 bits.
fn without(sum: i32, own: i16) -> i16
    requires { nat_abs sum ≤ 8 * 32768 }
    ensures { result ≡ sat16 (sum -ℤ own) }
{
    basic_op::sat16(sum - own as i32)
}

// Adds the leg at a place to the sums of those before it. Its samples are of 16 bits, which bounds the sums of the next turn.
fn add(total: &mut [i32; FRAME], legs: &[i16], from: usize)
    requires { (from + 80 ≤ length legs.now) × ((length total.old ≡ 80) × Within 7 total.old) }
    ensures total_after { total.new ≡ tab 80 (λ i. at total.old i +ℤ at legs.now (from + i)) }
    ensures samples_at { SamplesAt legs.now from 80 }
{
    for i in 0..FRAME {
        total[i] = plus(total[i], legs[from + i]);
    }
}

// The exact sums of all legs.
fn sums(legs: &[i16]) -> [i32; FRAME]
    requires { length legs.now ≤ 640 }
    ensures { (result ≡ tab 80 (λ i. sum i (legs_of legs.now))) × Within 8 result }
{
    let mut total = [0i32; FRAME];
    for k in 0..legs.len() / FRAME {
        add(&mut total, legs, FRAME * k);
    }
    total
}

// Writes what the leg at a place heard: the sums without its own samples, limited.
fn less(total: &[i32; FRAME], legs: &[i16], from: usize, heard: &mut [i16])
    requires { (from + 80 ≤ length legs.now) × ((from + 80 ≤ length heard.old) × Within 8 total.now) }
    ensures { heard.new ≡ paste heard.old from (tab 80 (λ i. sat16 (at total.now i -ℤ at legs.now (from + i)))) 80 }
{
    for i in 0..FRAME {
        heard[from + i] = without(total[i], legs[from + i]);
    }
}

// The same of each leg.
fn each(total: &[i32; FRAME], legs: &[i16], heard: &mut [i16])
    requires { (length legs.now % 80 ≡ 0) × (length heard.old ≡ length legs.now) × ((total.now ≡ tab 80 (λ i. sum i (legs_of legs.now))) × Within 8 total.now) }
    ensures { heard.new ≡ joined (mix (legs_of legs.now)) }
{
    for k in 0..legs.len() / FRAME {
        less(total, legs, FRAME * k, heard);
    }
}

// For each leg the sum of all the others, limited to 16 bits. Refusals 19, 7, which leave `heard` as it was.
pub fn mix(legs: &[i16], heard: &mut [i16]) -> Result<(), Refusal>
    ensures { Mixed.mixed (code result) heard.new ≡ mix_call legs.now heard.old }
{
    check(legs.len(), heard.len())?;
    let total = sums(legs);
    each(&total, legs, heard);
    Ok(())
}
