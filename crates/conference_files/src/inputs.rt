// The legs of a conference: what each is by its first bytes, and its next frame.
ghost use Rattle.std.specs.Prelude.{◌≡◌, ◌≤◌, ◌<◌, length, IfOk};
ghost use Rattle.source.specs.Source.{Inside};

use crate::{FRAME, LEGS, SAMPLES, paths};
use files::{Input, Told};
use leg_frame::Found;
use source::{ROOM, Source};

// The bytes of a frame of words, the most that one of bytes or words has.
const NEEDED: usize = 160;

// What the bytes of a leg are.
#[derive(Clone, Copy, PartialEq, Eq)]
enum Form {
    ALaw,
    MuLaw,
    Linear,
    Printed,
}

impl Form {
    // Its number in crate leg_frame.
    fn number(self) -> u32 {
        match self {
            Form::ALaw => leg_frame::A,
            Form::MuLaw => leg_frame::MU,
            Form::Linear => leg_frame::LINEAR,
            Form::Printed => leg_frame::PRINTED,
        }
    }
}

// What may follow of a leg: a line of samples or the total, the total alone, or the end alone. Legs of bytes and words stay at the first.
#[derive(Clone, Copy, PartialEq, Eq)]
enum Next {
    Any,
    Total,
    End,
    // It has ended; or it could not be read or was refused, and the reason was said.
    Done,
    Failed,
}

// Why a printed leg is refused.
#[derive(Clone, Copy)]
enum Fault {
    NoLine,
    // A line behind one of fewer than 80 samples, or behind the total.
    BehindShort,
    Behind,
    // The last line has no line feed.
    NoFeed,
    // No total, or that of another number.
    NoTotal,
    OtherTotal,
    // The call was refused.
    Refused,
}

impl Fault {
    // In words.
    fn words(self) -> &'static [u8] {
        match self {
            Fault::NoLine =>
                b"neither `(pcm H)` with four hexadecimal digits, 0-9 and a-f, for each of 1 to 80 samples nor a total",
            Fault::BehindShort => b"samples behind a line of fewer than 80",
            Fault::Behind => b"bytes behind the total",
            Fault::NoFeed => b"the last line has no line feed; it may be cut",
            Fault::NoTotal => b"no total at the end; it may be cut",
            Fault::OtherTotal => b"the total of another number of samples; some may be missing",
            Fault::Refused => b"this call was refused when it was decoded",
        }
    }
}

// ---- the first bytes

// The law before a word's name, where there is one, and the name.
#[derive(Clone, Copy)]
struct Named<'a> {
    law: Option<Form>,
    name: &'a [u8],
}

fn parted<'a>(word: &'a [u8]) -> Named<'a> {
    match word {
        [b'a', b':', name @ ..] => Named {
            law: Some(Form::ALaw),
            name,
        },
        [b'm', b'u', b':', name @ ..] => Named {
            law: Some(Form::MuLaw),
            name,
        },
        name => Named { law: None, name },
    }
}

// Which form a WAV file's samples have that begins with these bytes, where they can be taken: linear, unless it is one of the laws.
fn form_of(bytes: &[u8]) -> Form {
    let Err(wav::Fault::OtherFormat) = wav::look(bytes, wav::A_LAW, 8) else {
        return Form::ALaw;
    };
    let Err(wav::Fault::OtherFormat) = wav::look(bytes, wav::MU_LAW, 8) else {
        return Form::MuLaw;
    };
    Form::Linear
}

// What is at hand of a WAV file of this form.
fn wave(rt: &HostRuntime, form: Form, name: &[u8], bytes: &[u8]) -> Source
    ensures { Inside result (length bytes.now) }
{
    match form {
        Form::ALaw => source::wave(
            rt,
            name,
            bytes,
            wav::A_LAW,
            8,
            b"A-law of 8 bits (format 6)",
        ),
        Form::MuLaw => source::wave(
            rt,
            name,
            bytes,
            wav::MU_LAW,
            8,
            b"mu-law of 8 bits (format 7)",
        ),
        _ => source::wave(
            rt,
            name,
            bytes,
            wav::PCM,
            16,
            b"A-law or mu-law of 8 bits (format 6, 7) or linear PCM of 16 bits (format 1)",
        ),
    }
}

// What a leg's bytes are, and those at hand.
#[derive(Clone, Copy)]
struct Begun {
    form: Form,
    source: Source,
}

// A leg whose form isn't known is refused; a read tells whether it could be read at all.
fn unknown(rt: &HostRuntime, file: &Input, name: &[u8], empty: bool, input: &mut [u8]) -> Told {
    let s = source::fill(rt, file, name, source::unread(), input);
    if s.good && empty {
        files::say(rt, name, b"empty");
    } else if s.good {
        files::say(
            rt,
            name,
            b"neither printed samples nor a WAV file; G.711 bytes are given with their law, as a:FILE or mu:FILE",
        );
    }
    Told
}

// A WAV file of this form.
fn waved(rt: &HostRuntime, form: Form, name: &[u8], bytes: &[u8]) -> Result<Begun, Told>
    ensures { IfOk result (λ b. Inside b.source (length bytes.now)) }
{
    let source = wave(rt, form, name, bytes);
    if source.good {
        return Ok(Begun { form, source });
    }
    Err(Told)
}

// A leg of which n bytes were read.
fn told(
    rt: &HostRuntime,
    file: &Input,
    word: Named,
    input: &mut [u8],
    n: usize,
) -> Result<Begun, Told>
    requires { n ≤ length input.old }
    ensures { IfOk result (λ b. Inside b.source (length input.old)) }
{
    let name = word.name;
    let bytes = &input[..n];
    let found = leg_frame::form(bytes);
    if found == leg_frame::WAV {
        return match word.law {
            Some(law) => waved(rt, law, name, bytes),
            None => waved(rt, form_of(bytes), name, bytes),
        };
    }
    let printed = found == leg_frame::PRINTED;
    let form = match word.law {
        Some(_) if printed => {
            files::say(rt, name, b"printed samples; give them without a law");
            return Err(Told);
        }
        Some(law) => law,
        None if printed => Form::Printed,
        None => return Err(unknown(rt, file, name, n == 0, input)),
    };
    Ok(Begun {
        form,
        source: source::raw(n),
    })
}

// A leg: its number, its name and its file, what its bytes are, those at hand, what may follow, and the lines and the samples of a printed one. Its buffer is lent to it, so that it is never moved with it.
#[derive(Drop)]
pub(crate) struct Leg<'a> {
    number: u64,
    name: &'a [u8],
    file: Input,
    form: Form,
    source: Source,
    next: Next,
    lines: u32,
    samples: u32,
    ghost within: { Inside source 65536 },
}

// Leg k, open, with its first bytes.
fn opened<'a>(
    rt: &HostRuntime,
    names: &'a [u8],
    k: usize,
    input: &mut [u8; ROOM],
) -> Result<Leg<'a>, Told>
    requires { k < 8 }
{
    let word = parted(paths::word(names, k + 1));
    if word.name.is_empty() {
        files::say(rt, b"conference", b"no name behind a: or mu:");
        return Err(Told);
    }
    let file = files::opened(rt, word.name)?;
    let n = file.read_full(input);
    let b = told(rt, &file, word, input, n)?;
    Ok(Leg {
        number: k as u64 + 1,
        name: word.name,
        file,
        form: b.form,
        source: b.source,
        next: Next::Any,
        lines: 0,
        samples: 0,
    })
}

// The first n legs, open. Those behind one that can't be taken are not opened.
pub(crate) fn begin<'a>(
    rt: &HostRuntime,
    names: &'a [u8],
    n: usize,
    legs: &mut [Option<Leg<'a>>; LEGS],
    input: &mut [[u8; ROOM]; LEGS],
) -> Result<(), Told>
    requires { n ≤ 8 }
{
    for k in 0..n {
        legs[k] = Some(opened(rt, names, k, &mut input[k])?);
    }
    Ok(())
}

// ---- the next frame

// What follows a line, where this might follow.
fn behind_line(next: Next, line: Found) -> Result<Next, Fault> {
    if next == Next::End {
        return Err(Fault::Behind);
    }
    match line {
        Found::Total => Ok(Next::End),
        Found::OtherTotal => Err(Fault::OtherTotal),
        Found::Refused => Err(Fault::Refused),
        Found::NoLine => Err(Fault::NoLine),
        Found::Samples(_) if next == Next::Total => Err(Fault::BehindShort),
        Found::Samples(n) if n < FRAME => Ok(Next::Total),
        Found::Samples(_) => Ok(Next::Any),
    }
}

// What follows where no whole line is at hand and none can be read, but so many bytes.
fn behind_last(next: Next, left: usize, ended: bool) -> Result<Next, Fault> {
    match next {
        Next::End if left == 0 => Ok(Next::Done),
        Next::End => Err(Fault::Behind),
        _ if left == 0 => Err(Fault::NoTotal),
        _ if ended => Err(Fault::NoFeed),
        _ => Err(Fault::NoLine),
    }
}

impl<'a> Leg<'a> {
    // Why it is refused at its next line.
    fn refuse(&self, rt: &HostRuntime, why: Fault) {
        // The name of a pipe needn't be the one that was typed.
        files::tell(rt, b"leg ");
        files::tell_number(rt, self.number);
        files::tell(rt, b", ");
        files::say_line(rt, self.name, line_step::one_more(self.lines), why.words());
    }

    // What follows; a refusal is told, and is then a failure.
    fn decided(&self, rt: &HostRuntime, next: Result<Next, Fault>) -> Next {
        match next {
            Ok(next) => next,
            Err(why) => {
                self.refuse(rt, why);
                Next::Failed
            }
        }
    }

    // A read; whether it could be done.
    fn read(&mut self, rt: &HostRuntime, input: &mut [u8; ROOM]) -> bool {
        self.source = source::fill(rt, &self.file, self.name, self.source, input);
        if !self.source.good {
            self.next = Next::Failed;
        }
        self.source.good
    }

    // The line of a printed leg that ends before a place. Whether a turn is needed before the next frame is there.
    fn take(
        &mut self,
        rt: &HostRuntime,
        end: usize,
        input: &[u8; ROOM],
        frame: &mut [i16; FRAME],
    ) -> bool
        requires { (self.old.source.from ≤ end) × (end < self.old.source.to) }
    {
        let s = self.source;
        let from = s.from;
        let line = leg_frame::line(self.samples, &input[from..end], frame);
        self.next = self.decided(rt, behind_line(self.next, line));
        self.source = source::used(s, end + 1 - from);
        self.lines = line_step::one_more(self.lines);
        self.samples = self.samples.wrapping_add(line.samples() as u32);
        self.next == Next::End
    }

    // One turn of a printed leg: its next line, or a read where there is no whole one.
    fn printed(
        &mut self,
        rt: &HostRuntime,
        input: &mut [u8; ROOM],
        frame: &mut [i16; FRAME],
    ) -> bool {
        let s = self.source;
        let end = octets::find(input, s.from, s.to, 10);
        if end < s.to {
            return self.take(rt, end, input, frame);
        }
        let left = s.to - s.from;
        if !s.ended && left < ROOM {
            return self.read(rt, input);
        }
        self.next = self.decided(rt, behind_last(self.next, left, s.ended));
        false
    }

    // The end of a leg of bytes or words. What is at hand stays.
    fn end(&mut self, rt: &HostRuntime)
        ensures { self.new.source ≡ self.old.source }
    {
        if source::cut(self.source) {
            files::say(
                rt,
                self.name,
                b"a WAV file of fewer samples than it says: it was cut, or its length was not known when it was written",
            );
        }
        self.next = Next::Done;
    }

    // One turn of another leg: its next samples, or a read where there may be fewer at hand than a frame has.
    fn sampled(
        &mut self,
        rt: &HostRuntime,
        input: &mut [u8; ROOM],
        frame: &mut [i16; FRAME],
    ) -> bool {
        let s = self.source;
        let from = s.from;
        let to = s.to;
        if to - from < NEEDED && !s.ended {
            return self.read(rt, input);
        }
        let n = leg_frame::samples(self.form.number(), &input[from..to], frame);
        if n == 0 {
            self.end(rt);
        } else {
            self.source = source::used(s, n);
        }
        false
    }

    // One turn.
    fn turn(&mut self, rt: &HostRuntime, input: &mut [u8; ROOM], frame: &mut [i16; FRAME]) -> bool {
        if self.form == Form::Printed {
            return self.printed(rt, input, frame);
        }
        self.sampled(rt, input, frame)
    }

    // Its turns up to its next frame, or to where there is none: silence where it has ended.
    fn frame(&mut self, rt: &HostRuntime, input: &mut [u8; ROOM], frame: &mut [i16; FRAME]) {
        if self.next == Next::Done {
            return;
        }
        for _ in 0..u64::MAX {
            if !self.turn(rt, input, frame) {
                break;
            }
        }
    }
}

// The next frame of each leg, at its place among the samples of all.
pub(crate) fn frames(
    rt: &HostRuntime,
    legs: &mut [Option<Leg>; LEGS],
    input: &mut [[u8; ROOM]; LEGS],
    samples: &mut [i16; SAMPLES],
) {
    for (k, (leg, input)) in legs.iter_mut().zip(input.iter_mut()).enumerate() {
        if let Some(leg) = leg {
            let mut one = [0i16; FRAME];
            leg.frame(rt, input, &mut one);
            samples[k * FRAME..(k + 1) * FRAME].copy_from_slice(&one);
        }
    }
}

// Where all legs are, together.
#[derive(Clone, Copy)]
pub(crate) enum Standing {
    // One has failed.
    Failed,
    // All have ended.
    Done,
    Going,
}

pub(crate) fn all_of(legs: &[Option<Leg>; LEGS]) -> Standing {
    let mut all = Standing::Done;
    for leg in legs.iter().flatten() {
        match leg.next {
            Next::Failed => return Standing::Failed,
            Next::Done => {}
            _ => all = Standing::Going,
        }
    }
    all
}
