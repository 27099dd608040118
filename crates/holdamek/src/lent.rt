// What a frame hands up and the counts of a call as arrays of numbers, as they are lent to C (change request 12): include/holdamek.h has their order.
ghost use Rattle.std.specs.Prelude.{◌≡◌};
ghost use Rattle.holdamek.specs.Lent.{delays_of, rules_of, rules_known, rules_of_numbers, counts_of, numbers_of};

use count::Counts;
use rule::{Report, Rules};

// Both delays: integer and fraction of the first subframe's, then of the second's.
pub(crate) fn delays_of(r: Report) -> [i16; 4]
    ensures { result ≡ delays_of r }
{
    let first = r.first;
    let second = r.second;
    [
        first.integer,
        first.fraction,
        second.integer,
        second.fraction,
    ]
}

// The numbers of both rules, 1 to 5.
pub(crate) fn rules_of(r: Report) -> [u32; 2]
    ensures { result ≡ rules_of r }
{
    let both = r.rules;
    let first = both.first;
    let second = both.second;
    [rule::number(first), rule::number(second)]
}

// Whether both numbers are a rule's: C has no type with five values only.
pub(crate) fn rules_known(first: u32, second: u32) -> bool
    ensures { result ≡ rules_known first second }
{
    rule::known(first) & rule::known(second)
}

// The rules of two numbers.
pub(crate) fn rules_of_numbers(first: u32, second: u32) -> Rules
    ensures { result ≡ rules_of_numbers first second }
{
    let a = rule::of_number(first);
    let b = rule::of_number(second);
    Rules {
        first: a,
        second: b,
    }
}

// The counts of seven numbers: frames, lost, and the subframes of each rule.
pub(crate) fn counts_of(n: &[u32; 7]) -> Counts
    ensures { result ≡ counts_of n.now }
{
    Counts {
        frames: n[0],
        lost: n[1],
        thirds: n[2],
        whole: n[3],
        relative: n[4],
        parity: n[5],
        concealed: n[6],
    }
}

// And back.
pub(crate) fn numbers_of(c: Counts) -> [u32; 7]
    ensures { result ≡ numbers_of c }
{
    [
        c.frames,
        c.lost,
        c.thirds,
        c.whole,
        c.relative,
        c.parity,
        c.concealed,
    ]
}
