// The program `compare [--tables FILE] CALL FAR [SAMPLES]`: compares the far end's samples with what a decoder makes of the call's frames. It reads both in step and prints a
// line a frame, the stretches, and what was counted. No contract can say what is read or written; the work is done on lent memory, by crates far and compare_turn.
#![tactic(auto)]

ghost use Rattle.std.specs.Prelude.{◌≡◌, ◌-◌, ◌≤◌, length};
ghost use Rattle.source.specs.Source.{Inside};

use compare_step::COMPARE_LENGTH;
use compare_turn::{AtHand, Follows, Standing, Taken};
use far::Form;
use files::{Input, Told};
use options::Asked;
use refusal::Refusal;
use report::forms::ROOM;
use source::Source;
use std::fs::File;

const USAGE: [u8; 50] = *b"usage: compare [--tables FILE] CALL FAR [SAMPLES]\n";

// The bytes of the buffers: of the call, of the far samples, and of what is printed.
const CALL: usize = 16384;

const FAR: usize = source::ROOM;

const OUT: usize = 65536;

// ---- the two files

// A file that is read through N bytes, which are lent to it: its name, its bytes at hand, and whether they are too few to tell what follows.
#[derive(Drop)]
struct Reader<'a, const N: usize> {
    file: Input,
    name: &'a [u8],
    source: Source,
    lacks: bool,
    ghost within: { Inside source N },
}

impl<'a, const N: usize> Reader<'a, N> {
    // The bytes at hand.
    fn at_hand<'b>(&self, bytes: &'b [u8; N]) -> &'b [u8]
        ensures { length result.now ≡ self.now.source.to - self.now.source.from }
    {
        let view: &'b [u8] = bytes;
        &view[self.source.from..self.source.to]
    }

    // A read, where bytes are lacking.
    fn fill(&mut self, rt: &HostRuntime, bytes: &mut [u8; N]) -> Result<(), Told> {
        if self.lacks {
            self.source = source::fill(rt, &self.file, self.name, self.source, bytes);
        }
        if self.source.good { Ok(()) } else { Err(Told) }
    }

    // Whether bytes are lacking, so that a read follows.
    fn wait(&mut self, lacks: bool) {
        self.lacks = lacks;
    }

    // So many bytes are used.
    fn take(&mut self, n: usize)
        requires { n ≤ self.old.source.to - self.old.source.from }
    {
        self.source = source::used(self.source, n);
    }
}

// The first bytes of a far file: its form, and its samples at hand. The reason is on standard error where it is a WAV file of another kind.
#[derive(Clone, Copy)]
struct Begun {
    form: Form,
    source: Source,
}

fn first(rt: &HostRuntime, name: &[u8], bytes: &[u8]) -> Begun
    ensures { Inside result.source (length bytes.now) }
{
    let form = Form::of(bytes);
    let source = if form == Form::Wav {
        source::wave(
            rt,
            name,
            bytes,
            wav::PCM,
            16,
            b"linear PCM of 16 bits (format 1)",
        )
    } else {
        source::raw(bytes.len())
    };
    Begun { form, source }
}

// ---- turns

// A comparison: the open files, of which there is none of samples where none is wanted, the far one's form, what was counted, and what follows.
#[derive(Drop)]
struct Comparison<'a> {
    call: Reader<'a, CALL>,
    far: Reader<'a, FAR>,
    samples: Option<File>,
    form: Form,
    at: Standing,
    next: Follows,
}

// Writes computed samples.
fn put(rt: &HostRuntime, samples: &File, bytes: &[u8]) -> Result<(), Told> {
    files::or_tell(rt, b"SAMPLES", files::write_all(samples, bytes))
}

// Writes what a turn printed: the samples too where the report can't be written.
fn written(
    rt: &HostRuntime,
    samples: &Option<File>,
    taken: Taken,
    out: &[u8],
    pcm: &[u8],
) -> Result<(), Told>
    requires { (taken.written ≤ length out.now) × (taken.printed ≤ length pcm.now) }
{
    let told = files::write(rt, &out[..taken.written]);
    if let Some(file) = samples {
        put(rt, file, &pcm[..taken.printed])?;
    }
    told
}

// What a call has at hand, and what a file of far samples has.
fn line_at(call: &Reader<CALL>, bytes: &[u8; CALL]) -> AtHand {
    compare_turn::call_at(call.at_hand(bytes), call.source.ended)
}

fn frame_at(form: Form, far: &Reader<FAR>, bytes: &[u8; FAR]) -> AtHand {
    compare_turn::far_at(form as u32, far.at_hand(bytes), far.source.ended)
}

impl<'a> Comparison<'a> {
    // What follows, by what is left of both files.
    fn decide(&mut self, call: &[u8; CALL], far: &[u8; FAR]) {
        let line = line_at(&self.call, call);
        let frame = frame_at(self.form, &self.far, far);
        self.call.wait(line == AtHand::Wait);
        self.far.wait(frame == AtHand::Wait);
        self.next = compare_turn::next(line as u32, frame as u32);
    }

    // One turn: reads, compares, writes, and what follows.
    fn turn(
        &mut self,
        rt: &HostRuntime,
        t: &[i16; 1880],
        m: &mut [i16; COMPARE_LENGTH],
        call: &mut [u8; CALL],
        far: &mut [u8; FAR],
        out: &mut [u8],
        pcm: &mut [u8],
    ) -> Result<(), Told> {
        let call_read = self.call.fill(rt, call);
        let far_read = self.far.fill(rt, far);
        let taken = compare_turn::turn(
            t,
            m,
            self.at,
            self.form as u32,
            self.call.at_hand(call),
            self.far.at_hand(far),
            self.samples.is_some(),
            out,
            pcm,
        );
        let told = written(rt, &self.samples, taken, out, pcm);
        self.at = taken.at;
        self.call.take(taken.line);
        self.far.take(taken.frame);
        self.decide(call, far);
        call_read?;
        far_read?;
        told
    }

    // Whether a further turn follows.
    fn goes_on(&self) -> bool {
        self.at.code == 0 && matches!(self.next, Follows::Go | Follows::Read)
    }

    // All turns. Each but the last takes bytes of a file, of which a call's longest line and its most frames limit the number.
    fn run(
        &mut self,
        rt: &HostRuntime,
        t: &[i16; 1880],
        m: &mut [i16; COMPARE_LENGTH],
        far: &mut [u8; FAR],
    ) -> Result<(), Told> {
        let mut call = [0u8; CALL];
        let mut out = [0u8; OUT];
        let mut pcm = [0u8; OUT];
        for _ in 0..u32::MAX {
            self.turn(rt, t, m, &mut call, far, &mut out, &mut pcm)?;
            if !self.goes_on() {
                break;
            }
        }
        Ok(())
    }
}

// ---- the end

// Prints a form of a report.
fn tell(rt: &HostRuntime, form: &[u8; ROOM], n: usize) -> Result<(), Told>
    requires { n ≤ 160 }
{
    files::write(rt, &form[..n])
}

// The last forms of a comparison that was not refused: what was counted, the first frame that differs, and which file ended first.
fn summary(rt: &HostRuntime, at: Standing, next: Follows) -> Result<(), Told> {
    let mut form = [0u8; ROOM];
    let n = report::forms::total(at.tally, &mut form);
    tell(rt, &form, n)?;
    if let Some(first) = at.first {
        let n = report::forms::fault(first, &mut form);
        tell(rt, &form, n)?;
    }
    let far = next == Follows::FarEnds;
    if far || next == Follows::CallEnds {
        let n = report::forms::ends(far, at.tally.counts.frames, &mut form);
        tell(rt, &form, n)?;
    }
    Ok(())
}

// The number of the refusal that ended a comparison, if one did; that of a line's form for one that has no end.
fn refusal(at: Standing, next: Follows) -> Option<u32> {
    match (at.code, next) {
        (0, Follows::Refuse) => Some(Refusal::LineForm.number()),
        (0, _) => None,
        (code, _) => Some(code),
    }
}

// The last stretch, which ends with this frame, where there is one.
fn stretch(rt: &HostRuntime, at: Standing, last: u32) -> Result<(), Told> {
    let Some(stretch) = at.stretch else {
        return Ok(());
    };
    let mut form = [0u8; ROOM];
    let n = report::forms::stretch(stretch, last, &mut form);
    tell(rt, &form, n)
}

// The end of the last stretch; then the summary, or the form of a refusal, as `decode` prints it.
fn finish(rt: &HostRuntime, at: Standing, next: Follows) -> Result<(), Told> {
    let frames = at.tally.counts.frames;
    let told = stretch(rt, at, frames);
    if let Some(code) = refusal(at, next) {
        files::print_refused(rt, code, line_step::one_more(frames));
        return told;
    }
    told?;
    summary(rt, at, next)
}

// ---- the beginning

// The file of the computed samples, which must be new: nothing is overwritten.
fn made(rt: &HostRuntime, name: &[u8]) -> Result<File, Told> {
    files::or_tell(rt, name, files::create(rt, name))
}

// A comparison before its first turn, in which the call is read: the far file's form is told, and then the samples' file is made.
fn opened<'a>(
    rt: &HostRuntime,
    call: Input,
    far: Input,
    call_name: &'a [u8],
    far_name: &'a [u8],
    samples: Option<&[u8]>,
    bytes: &mut [u8; FAR],
) -> Result<Comparison<'a>, Told> {
    let n = far.read_full(bytes);
    let b = first(rt, far_name, &bytes[..n]);
    if !b.source.good {
        return Err(Told);
    }
    let samples = match samples {
        Some(name) => Some(made(rt, name)?),
        None => None,
    };
    Ok(Comparison {
        call: Reader {
            file: call,
            name: call_name,
            source: source::unread(),
            lacks: true,
        },
        far: Reader {
            file: far,
            name: far_name,
            source: b.source,
            lacks: false,
        },
        samples,
        form: b.form,
        at: compare_turn::start(),
        next: Follows::Read,
    })
}

// The files are opened, and compared where both could be.
fn compare(
    rt: &HostRuntime,
    t: &[i16; 1880],
    call_name: &[u8],
    far_name: &[u8],
    samples: Option<&[u8]>,
) -> Result<(), Told> {
    let call = files::opened(rt, call_name);
    let far = files::opened(rt, far_name);
    let call = call?;
    let far = far?;
    let mut m = [0i16; COMPARE_LENGTH];
    // The tables were checked, and the memory is of its length.
    let _ = compare_step::begin(t, &mut m);
    let mut bytes = [0u8; FAR];
    let mut c = opened(rt, call, far, call_name, far_name, samples, &mut bytes)?;
    c.run(rt, t, &mut m, &mut bytes)?;
    finish(rt, c.at, c.next)
}

// The tables are checked before the files are opened.
fn checked(rt: &HostRuntime, a: Asked, tables: &[u8], t: &mut [i16; 1880]) {
    let mut state = [0i16; 234];
    let known = files::tables(rt, tables, t, &mut state);
    if known.code != 0 {
        files::print_refused(rt, known.code, 0);
        return;
    }
    let mut call = [0u8; 4096];
    let mut far = [0u8; 4096];
    let mut samples = [0u8; 4096];
    let call = files::argument(rt, a.first, b"", &mut call);
    let far = files::argument(rt, a.second, b"", &mut far);
    let samples = files::argument(rt, a.third, b"", &mut samples);
    let samples = if a.third.is_some() {
        Some(samples)
    } else {
        None
    };
    let _ = compare(rt, t, call, far, samples);
}

fn main(rt: HostRuntime) {
    if files::standard_open(&rt).is_err() {
        return;
    }
    let a = files::asked(&rt, 2, 3);
    let usage = USAGE;
    let done = files::answered(
        &rt,
        a,
        b"compare",
        &usage,
        b"Compares the samples of a far decoder with what a decoder makes of the same frames, whatever the far one's past:\na line for each frame, the stretches that could be compared, and what was counted.\n\n  compare monday.call monday.wav >monday.report\n\n  CALL            the frames, one a line\n  FAR             the far samples before the postfilter: what decode prints, 16-bit words, low byte first, or a WAV file\n  SAMPLES         a new file for the computed samples, a line for each frame\n  --tables FILE   the tables, 3,760 bytes; else tables.g729 of this folder\n  --help          this text\n  --version       the version\n",
    );
    if done {
        return;
    }
    let mut tables = [0u8; 4096];
    let tables = files::argument(&rt, a.tables, b"tables.g729", &mut tables);
    let mut t = [0i16; 1880];
    checked(&rt, a, tables, &mut t);
}
