// The forms that a report prints, each at the front of lent bytes: it answers the form's length, and the bytes behind it are as they were.
ghost use Rattle.std.specs.Prelude.{◌≡◌, ◌+◌, ◌≤◌, length};
ghost use Rattle.print.specs.Print.{over};
ghost use Rattle.text.specs.Text.{Put};
ghost use Rattle.report.specs.Forms.{signed, labelled, class, frame, stretch, total, fault, ends};

use crate::{First, Stretch, Tally};
use compare_step::Class;
use print::{figure, put};

// The bytes of the longest form.
pub const ROOM: usize = 160;

// A number with its sign, behind its label.
fn signed(label: &[u8], z: i32, from: usize, out: &mut [u8]) -> usize
    requires { from + length label.now + 11 ≤ length out.old }
    ensures { (result ≤ from + length label.now + 11) × Put (signed label.now z) from out.old result out.new }
{
    let at = put(label, from, out);
    if z < 0 {
        return figure(b"-", z.unsigned_abs(), at, out);
    }
    figure(b"", z.unsigned_abs(), at, out)
}

// A number behind its label, and what closes it.
fn labelled(label: &[u8], n: u32, close: &[u8], from: usize, out: &mut [u8]) -> usize
    requires { from + length label.now + 10 + length close.now ≤ length out.old }
    ensures { (result ≤ from + length label.now + 10 + length close.now) × Put (labelled label.now n close.now) from out.old result out.new }
{
    let at = figure(label, n, from, out);
    put(close, at, out)
}

// The class of a frame and its numbers, behind the frame's number.
fn class(c: Class, from: usize, out: &mut [u8]) -> usize
    requires { from + 60 ≤ length out.old }
    ensures { (result ≤ from + 60) × Put (class c) from out.old result out.new }
{
    match c {
        Class::Concealed => put(b" (concealed))\n", from, out),
        Class::Settling(n) => labelled(b" (settling ", n as u32, b"))\n", from, out),
        Class::NotClean(n) => labelled(b" (not-clean ", n as u32, b"))\n", from, out),
        Class::Known => put(b" (known))\n", from, out),
        Class::Differs(d) => {
            let a = figure(b" (differs (sample ", d.sample as u32, from, out);
            let b = signed(b") (rest ", d.rest, a, out);
            put(b")))\n", b, out)
        }
    }
}

// `(frame N (CLASS ..))`.
pub fn frame(n: u32, c: Class, out: &mut [u8; ROOM]) -> usize
    ensures { (result ≤ 160) × ((result ≡ length (frame n c)) × (out.new ≡ over (frame n c) out.old)) }
{
    let a = figure(b"(frame ", n, 0, out);
    class(c, a, out)
}

// `(stretch (from A) (to B) (differ N))`.
pub fn stretch(s: Stretch, to: u32, out: &mut [u8; ROOM]) -> usize
    ensures { (result ≤ 160) × ((result ≡ length (stretch s to)) × (out.new ≡ over (stretch s to) out.old)) }
{
    let a = figure(b"(stretch (from ", s.from, 0, out);
    let b = figure(b") (to ", to, a, out);
    labelled(b") (differ ", s.differ, b"))\n", b, out)
}

// `(total (frames N) (concealed N) (settling N) (not-clean N) (known N) (differ N))`.
pub fn total(t: Tally, out: &mut [u8; ROOM]) -> usize
    ensures { (result ≤ 160) × ((result ≡ length (total t)) × (out.new ≡ over (total t) out.old)) }
{
    let counts = t.counts;
    let a = figure(b"(total (frames ", counts.frames, 0, out);
    let b = figure(b") (concealed ", counts.lost, a, out);
    let c = figure(b") (settling ", t.settling, b, out);
    let d = figure(b") (not-clean ", t.unclean, c, out);
    let e = figure(b") (known ", t.known, d, out);
    labelled(b") (differ ", t.differ, b"))\n", e, out)
}

// `(line (frame N) (sample P) (rest R) (..))` of the first frame that differs.
pub fn fault(f: First, out: &mut [u8; ROOM]) -> usize
    ensures { (result ≤ 160) × ((result ≡ length (fault f)) × (out.new ≡ over (fault f) out.old)) }
{
    let a = figure(b"(line (frame ", f.frame, 0, out);
    let b = figure(b") (sample ", f.sample, a, out);
    let c = signed(b") (rest ", f.rest, b, out);
    put(
        b") (no decoder of these frames, whatever its past, makes these samples))\n",
        c,
        out,
    )
}

// `(far-ends (frame N))` and `(call-ends (frame N))`, behind their openings.
pub fn ends(far: bool, n: u32, out: &mut [u8; ROOM]) -> usize
    ensures { (result ≤ 160) × ((result ≡ length (ends far n)) × (out.new ≡ over (ends far n) out.old)) }
{
    if far {
        return labelled(b"(far-ends (frame ", n, b"))\n", 0, out);
    }
    labelled(b"(call-ends (frame ", n, b"))\n", 0, out)
}
