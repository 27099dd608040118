// The pitch delay (G.729): its parity (clause 3.7.2), the decoding of both subframes' delays (clauses 4.1.2 and 4.1.3), and the delay of an
// erased subframe (clause 4.4.4).
#![tactic(auto)]

ghost use Rattle.std.specs.Prelude.{◌≡◌, ◌/◌, ◌<◌, ◌≤◌};
ghost use Rattle.pitch.specs.Pitch.{parity_ok, decode_t1, decode_t2, nat, t_min, track, carried, increased, first, second, erased, voice_delays, concealed_delays};
ghost use Rattle.pitch.specs.Laws.{in_thirds};

// A pitch delay: an integer and thirds.
#[derive(Clone, Copy)]
pub struct Delay {
    pub integer: i16,
    pub fraction: i16,
}

// The integer delay carried from subframe to subframe.
#[derive(Clone, Copy)]
pub struct PitchState {
    pub old: i16,
}

// The delay that a subframe uses, and the state it leaves.
#[derive(Clone, Copy)]
pub struct Tracked {
    pub delay: Delay,
    pub state: PitchState,
}

// The delays of a frame's two subframes, and the state it leaves.
#[derive(Clone, Copy)]
pub struct Delays {
    pub first: Delay,
    pub second: Delay,
    pub state: PitchState,
}

// Clause 3.7.2: whether bits 2 to 7 of P1 agree with the parity bit P0.
pub fn parity_ok(p1: u16, p0: u16) -> bool
    ensures { result ≡ parity_ok p1 p0 }
{
    (1 + p1 / 4 + p1 / 8 + p1 / 16 + p1 / 32 + p1 / 64 + p1 / 128) % 2 == p0 % 2
}

// A third, rounded down, without a division (`third_by_shift`).
fn third(n: u16) -> u16
    requires { n ≤ 198 }
    ensures { result ≡ n / 3 }
{
    (n * 171) >> 9
}

// The delay n + (rest - 1) / 3.
fn in_thirds(n: u16, rest: u16) -> Delay
    requires { (n < 32768) × (rest < 32768) }
    ensures { result ≡ in_thirds n rest }
{
    Delay {
        integer: n as i16,
        fraction: rest as i16 - 1,
    }
}

// z, or 0 where it is negative.
pub fn nat(z: i16) -> u16
    ensures { result ≡ nat z }
{
    z.max(0).cast_unsigned()
}

// Clause 4.1.3: T1 from P1.
pub fn decode_t1(p1: u16) -> Delay
    ensures { result ≡ decode_t1 p1 }
{
    let p = p1 & 255;
    if p < 197 {
        let q = third(p + 2);
        return in_thirds(q + 19, p + 2 - 3 * q);
    }
    in_thirds(p - 112, 1)
}

// Clause 4.1.3: the least delay of the second subframe.
fn t_min(t1: i16) -> u16
    ensures { result ≡ t_min t1 }
{
    nat(t1).saturating_sub(5).clamp(20, 134)
}

// Clause 4.1.3: T2 from P2 and the integer part of T1.
pub fn decode_t2(p2: u16, t1: i16) -> Delay
    ensures { result ≡ decode_t2 p2 t1 }
{
    let p = p2 & 31;
    let q = third(p + 2);
    let least = t_min(t1);
    in_thirds(q + least - 1, p + 2 - 3 * q)
}

// The integer part of the delay used is carried.
fn track(delay: Delay) -> Tracked
    ensures { result ≡ track delay }
{
    Tracked {
        delay,
        state: PitchState { old: delay.integer },
    }
}

impl PitchState {
    // The carried delay, fraction 0.
    fn carried(self) -> Delay
        ensures { result ≡ carried self.old }
    {
        Delay {
            integer: self.old,
            fraction: 0,
        }
    }

    // The lesser of the carried delay plus 1 and 143.
    fn increased(self) -> PitchState
        ensures { result ≡ increased self.old }
    {
        PitchState {
            old: self.old.min(142) + 1,
        }
    }

    // Clause 4.1.2: subframe 1 of a received frame; after a parity error the carried delay.
    pub fn first(self, p1: u16, ok: bool) -> Tracked
        ensures { result ≡ first self.old p1 ok }
    {
        if ok {
            return track(decode_t1(p1));
        }
        track(self.carried())
    }

    // Clause 4.1.3: subframe 2 of a received frame.
    pub fn second(self, p2: u16, t1: i16) -> Tracked
        ensures { result ≡ second p2 t1 }
    {
        track(decode_t2(p2, t1))
    }

    // Clause 4.4.4: a subframe of an erased frame.
    pub fn erased(self) -> Tracked
        ensures { result ≡ erased self.old }
    {
        let delay = self.carried();
        let state = self.increased();
        Tracked { delay, state }
    }
}

// Clause 4.4.4 on a record that the caller lends.
pub fn erased_lent(s: &mut PitchState) -> Delay
    ensures { (result ≡ (erased s.entry.now.old).delay) × (s.exit.now ≡ (erased s.entry.now.old).state) }
{
    let next = (*s).erased();
    *s = next.state;
    next.delay
}

// Clauses 4.1.2 and 4.1.3: both subframes of a received frame.
pub fn voice_delays(s: PitchState, p1: u16, p0: u16, p2: u16) -> Delays
    ensures { result ≡ voice_delays s.old p1 p0 p2 }
{
    let t1 = s.first(p1, parity_ok(p1, p0));
    let first = t1.delay;
    let t2 = s.second(p2, first.integer);
    let second = t2.delay;
    let state = t2.state;
    Delays {
        first,
        second,
        state,
    }
}

// Clause 4.4.4: both subframes of an erased frame.
pub fn concealed_delays(s: PitchState) -> Delays
    ensures { result ≡ concealed_delays s.old }
{
    let mut state = s;
    let first = erased_lent(&mut state);
    let second = erased_lent(&mut state);
    Delays {
        first,
        second,
        state,
    }
}
