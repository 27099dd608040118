// Slices of bytes: one copied to the front of another, and the first place of a byte.
#![tactic(auto)]

ghost use Rattle.std.specs.Prelude.{◌≡◌, ◌+◌, ◌≤◌, ◌++◌, length, take, drop};
ghost use Rattle.octets.specs.Octets.{index_of, slice};

// Writes `from` at the front of `to`; how many bytes it has. That the bytes fit is asked, here and below, as std's slicing asks it (docs/DECISIONS.md, "Files and streams").
pub fn copy(from: &[u8], to: &mut [u8]) -> usize
    requires { length from.now ≤ length to.old }
    ensures count { result ≡ length from.now }
    ensures written { to.new ≡ take (length from.now) from.now ++ drop (length from.now) to.old }
{
    to[..from.len()].copy_from_slice(from);
    from.len()
}

// The first place from `from` on, and before `to`, at which `bytes` has the byte x; `to` where there is none.
pub fn find(bytes: &[u8], from: usize, to: usize, x: u8) -> usize
    requires ordered { from ≤ to }
    requires inside { to ≤ length bytes.now }
    ensures place { result ≡ from + index_of x (slice from to bytes.now) }
    ensures before { result ≤ to }
{
    match bytes[from..to].iter().position(|b| *b == x) {
        Some(n) => from + n,
        None => to,
    }
}
