// The table of arrivals that were read: the heading, a row for each depth, and the least depth.
ghost use Rattle.std.specs.Prelude.{◌≡◌, ◌≤◌, min, length};
ghost use Rattle.print.specs.Print.{over};
ghost use Rattle.playout.specs.Playout.{arrivals};
ghost use Rattle.depths_files.specs.Rows.{frames, start, row_at, last};

use crate::{MOST, TURNS};
use depth_options::Wanted;
use depth_table::ROOM;
use files::Told;

// The arrivals of a call, and when its frame 0 is played at depth 0. The two lists stand beside each other since the operation `playout` takes them so, for C.
#[derive(Clone, Copy)]
struct Heard<'a> {
    start: u32,
    numbers: &'a [u32],
    times: &'a [u32],
}

// A number of frames in 32 bits. No greater one is met: none is above 360,000 but for a wanted number of lost frames, which is given in 32 bits or is a part of them.
fn narrow(n: usize) -> u32
    ensures { result ≡ min n 4294967295 }
{
    n.min(4294967295) as u32
}

// How many frames there are: as asked, else one more than the greatest number, which reading has kept below 360,000.
#[tactic(auto, unfolding(crate::specs::Rows::frames))]
fn frames(w: Wanted, numbers: &[u32]) -> usize
    ensures { (result ≡ frames w numbers.now) × (result ≤ 360000) }
{
    let n = match w.frames {
        Some(n) => n as usize,
        None => depth_table::frames(numbers) as usize,
    };
    n.min(MOST)
}

// When frame 0 is played at depth 0: as asked, else so that depth 0 is just enough for the fastest frame.
#[tactic(auto, unfolding(crate::specs::Rows::start))]
fn start(w: Wanted, numbers: &[u32], times: &[u32]) -> u32
    ensures { result ≡ start w numbers.now times.now }
{
    match w.start {
        Some(start) => start,
        None => depth_table::earliest(numbers, times),
    }
}

// The row of a depth at the front of `out`; its length.
#[tactic(auto, using(crate::specs::Laws::lost_fits), unfolding(crate::specs::Rows::row_at))]
fn put_row(h: Heard<'_>, depth: u32, kinds: &mut [u32], out: &mut [u8; ROOM]) -> usize
    requires { length kinds.old ≤ 360000 }
    ensures { (result ≤ 80) × ((result ≡ length (row_at h.entry.start depth (arrivals h.entry.numbers.now h.entry.times.now) (length kinds.old))) × (out.new ≡ over (row_at h.entry.start depth (arrivals h.entry.numbers.now h.entry.times.now) (length kinds.old)) out.old)) }
{
    let frames = kinds.len() as u32;
    playout::kinds(h.start, depth, h.numbers, h.times, kinds);
    let lost = playout::lost(kinds);
    depth_table::row(depth, lost as u32, frames, out)
}

// The last line at the front of `out`; its length.
fn put_last(h: Heard<'_>, most: u32, kinds: &mut [u32], out: &mut [u8; ROOM]) -> usize
    requires { length kinds.old ≤ 360000 }
    ensures { (result ≤ 80) × ((result ≡ length (last h.entry.start most (arrivals h.entry.numbers.now h.entry.times.now) (length kinds.old))) × (out.new ≡ over (last h.entry.start most (arrivals h.entry.numbers.now h.entry.times.now) (length kinds.old)) out.old)) }
{
    let found = playout::least(h.start, most as usize, h.numbers, h.times, kinds);
    match found {
        None => depth_table::never(playout::lost(kinds) as u32, most, out),
        Some(d) => depth_table::least(d, most, out),
    }
}

// Prints the heading of so many frames.
fn print_heading(rt: &HostRuntime, h: Heard<'_>, frames: usize) -> Result<(), Told> {
    let mut out = [0u8; ROOM];
    let n = depth_table::heading(narrow(frames), narrow(h.numbers.len()), h.start, &mut out);
    files::write(rt, &out[..n])
}

// Prints the row of a depth.
fn print_row(rt: &HostRuntime, h: Heard<'_>, depth: u32, kinds: &mut [u32]) -> Result<(), Told>
    requires { length kinds.old ≤ 360000 }
{
    let mut out = [0u8; ROOM];
    let n = put_row(h, depth, kinds, &mut out);
    files::write(rt, &out[..n])
}

// Prints the last line.
fn print_last(rt: &HostRuntime, h: Heard<'_>, most: u32, kinds: &mut [u32]) -> Result<(), Told>
    requires { length kinds.old ≤ 360000 }
{
    let mut out = [0u8; ROOM];
    let n = put_last(h, most, kinds, &mut out);
    files::write(rt, &out[..n])
}

// The depth a step further, where the table has it. A step of 0 leads to none.
fn following(depth: u32, to: u32, step: u32) -> Option<u32> {
    let next = depth.checked_add(step)?;
    if next == depth || to < next {
        return None;
    }
    Some(next)
}

// Prints all rows, from depth 0 on.
fn print_rows(
    rt: &HostRuntime,
    h: Heard<'_>,
    to: u32,
    step: u32,
    kinds: &mut [u32],
) -> Result<(), Told>
    requires { length kinds.old ≤ 360000 }
{
    let mut depth = 0;
    for _ in 0..TURNS {
        print_row(rt, h, depth, kinds)?;
        let Some(next) = following(depth, to, step) else {
            break;
        };
        depth = next;
    }
    Ok(())
}

// Prints the table, with a kind for each frame lent.
fn print_table(rt: &HostRuntime, w: Wanted, h: Heard<'_>, kinds: &mut [u32]) -> Result<(), Told>
    requires { length kinds.old ≤ 360000 }
{
    let most = narrow(w.most(kinds.len() as u32));
    print_heading(rt, h, kinds.len())?;
    print_rows(rt, h, w.to, w.step, kinds)?;
    print_last(rt, h, most, kinds)
}

// The table with the kinds that its frames have.
fn print_part(rt: &HostRuntime, w: Wanted, h: Heard<'_>, kinds: &mut [u32]) -> Result<(), Told>
    requires { length kinds.old ≡ 360000 }
{
    let n = frames(w, h.numbers);
    print_table(rt, w, h, &mut kinds[..n])
}

// Prints the table of the arrivals of these lists.
pub(crate) fn print(
    rt: &HostRuntime,
    w: Wanted,
    numbers: &[u32],
    times: &[u32],
) -> Result<(), Told> {
    let h = Heard {
        start: start(w, numbers, times),
        numbers,
        times,
    };
    let mut kinds = [0u32; MOST];
    print_part(rt, w, h, &mut kinds)
}
