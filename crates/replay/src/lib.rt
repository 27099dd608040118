// What the programs that replay stored answers share: the hexadecimal words of a line, its parts, how many values agree, and what is read and printed.
#![tactic(auto)]

ghost use Rattle.std.specs.Prelude.{◌≡◌, cond, ◌-◌, ◌≤◌};

pub mod hex;
pub mod lines;
pub mod part;
pub mod stream;
pub mod tally;

// How many turns may follow of `most`: one less, and none where there is no more.
pub fn rest(most: u32, more: bool) -> u32
    ensures { (result ≡ cond more (most - 1) 0) × (result ≤ most - 1) }
{
    if more { most.saturating_sub(1) } else { 0 }
}

// Takes turns until one gives None, 2^32 - 1 at most. Counted by `rest`, whose promise is that no turn follows the last.
pub fn repeat<F: FnMut() -> Option<()>>(mut turn: F)
    requires { F.IsAlwaysCallable turn }
{
    let mut most = u32::MAX;
    while 0 < most {
        most = rest(most, turn().is_some());
    }
}
