// How each subframe's delay was found (change request 12; G.729 clauses 3.7.2, 4.1.2, 4.1.3 and 4.4.4), and what a frame hands up: both delays with their rules.
#![tactic(auto)]

ghost use Rattle.std.specs.Prelude.{◌≡◌};
ghost use Rattle.rule.specs.Rule.{number, known, of_number, first_rule, rules, delays, report};
ghost use Rattle.plc.specs.Kinds.{decide};

use pitch::{Delay, Delays, PitchState};
use plc::Decision;

// A delay coded in thirds, coded whole, coded relative to the first subframe's, carried after bad parity, carried in concealment: rules 1 to 5 of change request 12.
#[derive(Clone, Copy, PartialEq, Eq, Debug)]
pub enum Rule {
    Thirds = 1,
    Whole = 2,
    Relative = 3,
    BadParity = 4,
    Concealed = 5,
}

// Those of a frame's two subframes.
#[derive(Clone, Copy)]
pub struct Rules {
    pub first: Rule,
    pub second: Rule,
}

// What a frame hands up beside its samples: the delay that each subframe used, and how it was found.
#[derive(Clone, Copy)]
pub struct Report {
    pub first: Delay,
    pub second: Delay,
    pub rules: Rules,
}

// The number of a rule.
#[tactic(auto, unfolding(crate::specs::Rule::number))]
pub fn number(r: Rule) -> u32
    ensures { result ≡ number r }
{
    r as u32
}

// Whether a number is one of a rule.
pub fn known(n: u32) -> bool
    ensures { result ≡ known n }
{
    (1..=5).contains(&n)
}

// The rule with this number; a number that is no rule's gives the last, so that this is no TryFrom.
#[tactic(auto, unfolding(crate::specs::Rule::of_number))]
pub fn of_number(n: u32) -> Rule
    ensures { result ≡ of_number n }
{
    match n {
        1 => Rule::Thirds,
        2 => Rule::Whole,
        3 => Rule::Relative,
        4 => Rule::BadParity,
        _ => Rule::Concealed,
    }
}

// The rule of a received frame's first subframe: where the parity fails, P1 is not read.
fn first_rule(p1: u16, p0: u16) -> Rule
    ensures { result ≡ first_rule p1 p0 }
{
    if !pitch::parity_ok(p1, p0) {
        return Rule::BadParity;
    }
    if (p1 & 255) < 197 {
        return Rule::Thirds;
    }
    Rule::Whole
}

// Both rules of a frame, from what it is decoded as.
#[tactic(auto, unfolding(crate::specs::Rule::rules))]
pub fn rules_of(d: Decision) -> Rules
    ensures { result ≡ rules d }
{
    match d {
        Decision::Voice(f) => Rules {
            first: first_rule(f.p1, f.p0),
            second: Rule::Relative,
        },
        Decision::Concealment => Rules {
            first: Rule::Concealed,
            second: Rule::Concealed,
        },
    }
}

// The same from its kind and payload: what is counted before the frame is decoded.
pub fn frame_rules(kind: u32, payload: &[u8]) -> Rules
    ensures { result ≡ rules (decide kind payload.now) }
{
    rules_of(plc::decide(kind, payload))
}

// Both delays of a frame and the delay that it carries on, from the one carried into it.
#[tactic(auto, unfolding(crate::specs::Rule::delays))]
pub fn delays(d: Decision, s: PitchState) -> Delays
    ensures { result ≡ delays d s.old }
{
    match d {
        Decision::Voice(f) => pitch::voice_delays(s, f.p1, f.p0, f.p2),
        Decision::Concealment => pitch::concealed_delays(s),
    }
}

// These delays with the rules of the frame.
pub fn handed_up(d: Decision, first: Delay, second: Delay) -> Report
    ensures { result ≡ report d first second }
{
    Report {
        first,
        second,
        rules: rules_of(d),
    }
}
