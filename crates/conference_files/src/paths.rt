// The words of a conference, each followed by a zero byte, which no path has: OUT, and the legs behind it.
ghost use Rattle.std.specs.Prelude.{◌<◌, ◌≤◌, length};

// The most bytes of a path, with a zero byte behind it.
const PATH_MAX: usize = 4096;

// The most bytes of OUT, with which a name that begins with it is no longer than a path can be.
pub(crate) const LONGEST: usize = 4089;

// Word k; empty where there are fewer.
pub(crate) fn word<'a>(names: &'a [u8], k: usize) -> &'a [u8] {
    names.split(|b| *b == 0).nth(k).unwrap_or(b"")
}

// How many words there are.
pub(crate) fn count(names: &[u8]) -> usize {
    names.iter().filter(|b| **b == 0).count()
}

// The name of a file.
#[derive(Drop)]
pub(crate) struct Name {
    bytes: [u8; PATH_MAX],
    length: usize,
    ghost within: { length ≤ 4096 },
}

impl Name {
    pub(crate) fn as_bytes(&self) -> &[u8] {
        let view: &[u8] = &self.bytes;
        &view[..self.length]
    }
}

// The name of what leg k heard, OUT-1.wav for leg 0; empty where OUT is longer than `LONGEST`.
pub(crate) fn heard(names: &[u8], k: usize) -> Name
    requires { k < 8 }
{
    let mut bytes = [0u8; PATH_MAX];
    let out = word(names, 0);
    if LONGEST < out.len() {
        return Name { bytes, length: 0 };
    }
    let figure = [b'1' + k as u8; 1];
    let a = print::put(out, 0, &mut bytes);
    let b = print::put(b"-", a, &mut bytes);
    let c = print::put(&figure, b, &mut bytes);
    let length = print::put(b".wav", c, &mut bytes);
    Name { bytes, length }
}
