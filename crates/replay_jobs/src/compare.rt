// Files compared.
ghost use Rattle.std.specs.Prelude.{◌≤◌, length};

use files::Input;
use std::io::Print;

// How many bytes of two files were read, how many differ as far as both go, and the CRC-32 of the first.
#[derive(Clone, Copy, Default)]
struct Compared {
    first: u64,
    second: u64,
    differ: u64,
    sum: u32,
}

// How many bytes there are, where there is a file.
fn say_bytes(rt: &HostRuntime, from: &Option<Input>, n: u64) {
    if from.is_none() {
        let _ = print!(rt; "no file");
    } else {
        let _ = print!(rt; "{n} bytes");
    }
}

// The next bytes of a file, as many as there is room for; none where there is no file.
fn read(from: &Option<Input>, room: &mut [u8]) -> usize
    ensures { result ≤ length room.new }
{
    match from {
        Some(from) => from.read_full(room),
        None => 0,
    }
}

// How many bytes differ, as far as both go.
fn differing(a: &[u8], b: &[u8]) -> u64 {
    a.iter().zip(b).filter(|(x, y)| **x != **y).count() as u64
}

// With one chunk more of both files.
fn further(c: Compared, a: &[u8], b: &[u8]) -> Compared {
    Compared {
        first: c.first.wrapping_add(a.len() as u64),
        second: c.second.wrapping_add(b.len() as u64),
        differ: c.differ.wrapping_add(differing(a, b)),
        sum: crc32::more(c.sum, a),
    }
}

// Two open files.
fn compare(a: &Option<Input>, b: &Option<Input>) -> Compared {
    let mut x = [0u8; 65536];
    let mut y = [0u8; 65536];
    let mut c = Compared::default();
    for _ in 0..job::parts::ALL {
        let n = read(a, &mut x);
        let m = read(b, &mut y);
        if n == 0 && m == 0 {
            break;
        }
        c = further(c, &x[..n], &y[..m]);
    }
    c
}

fn open(rt: &HostRuntime, name: &[u8]) -> Option<Input> {
    files::open(rt, name).ok().map(Input::Named)
}

pub(crate) fn same(rt: &HostRuntime, a: &[u8], b: &[u8]) {
    let x = open(rt, a);
    let y = open(rt, b);
    let Compared {
        first,
        second,
        differ,
        sum,
    } = compare(&x, &y);
    say_bytes(rt, &x, first);
    let _ = print!(rt; ", ");
    say_bytes(rt, &y, second);
    let _ = println!(rt; ", differ {differ}, CRC-32 {sum:08x}");
}
