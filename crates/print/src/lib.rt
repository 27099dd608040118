// The printed forms of the decoding program, each ended by a line feed, written into lent memory. Not by `Display` and `write!`: only into a `String`, on the heap, do these promise which
// bytes they write.
#![tactic(auto)]

ghost use Rattle.std.specs.Prelude.{◌≡◌, ◌+◌, ◌*◌, ◌≤◌, length};
ghost use Rattle.text.specs.Text.{Put};
ghost use Rattle.print.specs.Print.{frame_room, form_room, word, words, pcm, decimal, figure, figures, total, saved, refused, over};

use count::Counts;

// The bytes of the shortest and of the longest that is printed for a frame.
pub const FRAME_LEAST: usize = 327;

pub const FRAME_ROOM: usize = 327;

// The bytes of the longest last form.
pub const FORM_ROOM: usize = 46;

// A function that takes a place `from` writes there, and answers the place behind what it wrote.

pub fn put(part: &[u8], from: usize, out: &mut [u8]) -> usize
    requires { from + length part.now ≤ length out.old }
    ensures { Put part.now from out.old result out.new }
{
    from + octets::copy(part, &mut out[from..])
}

// Four digits.
fn word(x: u16, from: usize, out: &mut [u8]) -> usize
    requires { from + 4 ≤ length out.old }
    ensures { Put (word x) from out.old result out.new }
{
    out[from] = text::digit(x / 4096);
    out[from + 1] = text::digit(x / 256);
    out[from + 2] = text::digit(x / 16);
    out[from + 3] = text::digit(x);
    from + 4
}

// Four digits for each sample.
pub fn words(samples: &[i16], from: usize, out: &mut [u8]) -> usize
    requires { from + 4 * length samples.now ≤ length out.old }
    ensures { Put (words (length samples.now) samples.now) from out.old result out.new }
{
    let mut at = from;
    for s in samples {
        at = word(s.cast_unsigned(), at, out);
    }
    at
}

// Lent memory that is written from the front: what stands before `at` is written.
#[derive(Drop)]
pub struct Writer<'a> {
    out: &'a mut [u8],
    at: usize,
}

impl<'a> Writer<'a> {
    pub fn new(out: &'a mut [u8]) -> Writer<'a>
        ensures same_reference { result.out.ghost_name ≡ out.entry.ghost_name }
        ensures kept { length result.out.now ≡ length out.old }
        ensures front { (result.at ≡ 0) × (result.out.now ≡ out.old) }
    {
        Writer { out, at: 0 }
    }

    // How many bytes are written.
    pub fn written(&self) -> usize
        ensures { result ≡ self.now.at }
    {
        self.at
    }

    pub fn put(&mut self, part: &[u8])
        requires { self.old.at + length part.now ≤ length self.old.out.now }
        ensures same_reference { self.new.out.ghost_name ≡ self.old.out.ghost_name }
        ensures kept { length self.new.out.now ≡ length self.old.out.now }
        ensures part { Put part.now self.old.at self.old.out.now self.new.at self.new.out.now }
    {
        self.at = put(part, self.at, self.out);
    }

    // Four digits for each sample.
    pub fn words(&mut self, samples: &[i16])
        requires { self.old.at + 4 * length samples.now ≤ length self.old.out.now }
        ensures same_reference { self.new.out.ghost_name ≡ self.old.out.ghost_name }
        ensures kept { length self.new.out.now ≡ length self.old.out.now }
        ensures within { self.new.at ≡ self.old.at + 4 * length samples.now }
        ensures part { Put (words (length samples.now) samples.now) self.old.at self.old.out.now self.new.at self.new.out.now }
    {
        self.at = words(samples, self.at, self.out);
    }

    // A number behind its label.
    pub fn figure(&mut self, label: &[u8], n: u32)
        requires { self.old.at + length label.now + 10 ≤ length self.old.out.now }
        ensures same_reference { self.new.out.ghost_name ≡ self.old.out.ghost_name }
        ensures kept { length self.new.out.now ≡ length self.old.out.now }
        ensures within { self.new.at ≤ self.old.at + length label.now + 10 }
        ensures part { Put (figure label.now n) self.old.at self.old.out.now self.new.at self.new.out.now }
    {
        self.at = figure(label, n, self.at, self.out);
    }
}

// `(pcm H)`: four digits for each sample, two's complement, high digit first. Answers its length; the bytes behind it are as they were.
pub fn pcm(samples: &[i16; 80], out: &mut [u8; FRAME_ROOM]) -> usize
    ensures { (result ≤ frame_room) × ((result ≡ length (pcm samples.now)) × (out.new ≡ over (pcm samples.now) out.old)) }
{
    let mut w = Writer::new(out);
    w.put(b"(pcm ");
    w.words(samples);
    w.put(b")\n");
    w.written()
}

// The decimal digits of a number.
fn number(n: u32, from: usize, out: &mut [u8]) -> usize
    requires { from + 10 ≤ length out.old }
    ensures { (result ≤ from + 10) × Put (decimal n) from out.old result out.new }
{
    if n < 10 {
        out[from] = 48 + n as u8;
        return from + 1;
    }
    let last = number(n / 10, from, out);
    out[last] = 48 + (n % 10) as u8;
    last + 1
}

// A number behind its label.
pub fn figure(label: &[u8], n: u32, from: usize, out: &mut [u8]) -> usize
    requires { from + length label.now + 10 ≤ length out.old }
    ensures { (result ≤ from + length label.now + 10) × Put (figure label.now n) from out.old result out.new }
{
    let at = put(label, from, out);
    number(n, at, out)
}

// A call's counts, behind an opening that ends in `(frames `.
fn figures(opening: &[u8; 15], c: Counts, out: &mut [u8; FORM_ROOM]) -> usize
    ensures { (result ≤ form_room) × Put (figures opening.now c) 0 out.old result out.new }
{
    let mut w = Writer::new(out);
    w.figure(opening, c.frames);
    w.figure(b") (lost ", c.lost);
    w.put(b"))\n");
    w.written()
}

// `(total (frames N) (lost M))`; answers its length; the bytes behind it are as they were.
pub fn total(c: Counts, out: &mut [u8; FORM_ROOM]) -> usize
    ensures { (result ≤ form_room) × ((result ≡ length (total c)) × (out.new ≡ over (total c) out.old)) }
{
    figures(b"(total (frames ", c, out)
}

// `(saved (frames N) (lost M))`, of a job that stopped before the end of its call; answers its length; the bytes behind it are as they were.
pub fn saved(c: Counts, out: &mut [u8; FORM_ROOM]) -> usize
    ensures { (result ≤ form_room) × ((result ≡ length (saved c)) × (out.new ≡ over (saved c) out.old)) }
{
    figures(b"(saved (frames ", c, out)
}

// `(refused (code C) (line L))`; answers its length; the bytes behind it are as they were.
pub fn refused(code: u32, line: u32, out: &mut [u8; FORM_ROOM]) -> usize
    ensures { (result ≤ form_room) × ((result ≡ length (refused code line)) × (out.new ≡ over (refused code line) out.old)) }
{
    let mut w = Writer::new(out);
    w.figure(b"(refused (code ", code);
    w.figure(b") (line ", line);
    w.put(b"))\n");
    w.written()
}
