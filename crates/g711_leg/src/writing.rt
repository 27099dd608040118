// Printed samples to a leg. The text is read twice: every line is tested before the leg is made, so that a text that is refused makes no file.
ghost use Rattle.std.specs.Prelude.{◌≡◌, ◌<◌, ◌≤◌, length, IfOk};
ghost use Rattle.source.specs.Source.{Inside};

use crate::{SAMPLES, tell};
use files::{Input, Told};
use g711::Law;
use refusal::Refusal;
use source::{ROOM, Source};
use std::fmt::InlineText;
use std::fs::File;
use std::io;
use std::io::{Error, ErrorKind};
use wav::HEADER;

// The bytes of a leg that are written at once.
const OUT: usize = 16384;

// What a total begins with.
const OPENING: [u8; 16] = *b"(total (samples ";

// Why a line is refused: it has no form, a sample that no byte has, stands behind the total, has no line feed, is longer than the buffer, or is a total of other samples.
#[derive(Clone, Copy)]
enum Fault {
    NoLine,
    NoByte,
    Behind,
    NoFeed,
    Long,
    OtherTotal,
}

impl Fault {
    fn refusal(self) -> Refusal {
        match self {
            Fault::NoByte => Refusal::NoTableValue,
            _ => Refusal::LineForm,
        }
    }

    // In words.
    fn words(self) -> &'static [u8] {
        match self {
            Fault::NoByte => b"refused (17): a sample that is no value of this law",
            Fault::Behind => b"refused (9): a line behind the total",
            Fault::OtherTotal =>
                b"refused (9): the total of another number of samples; some may be missing",
            Fault::NoFeed => b"refused (9): the last line has no line feed; it may be cut",
            Fault::NoLine | Fault::Long =>
                b"refused (9): neither `(pcm H)` with four hexadecimal digits, 0-9 and a-f, for each of 1 to 80 samples nor a total",
        }
    }
}

// Why a text is not read to its end.
#[derive(Clone, Copy)]
enum Stop {
    Told,
    Refused { line: u32, why: Fault },
}

impl From<Told> for Stop {
    ghost from_gives = { λ _ _. Unit };

    fn from(_told: Told) -> Self {
        Stop::Told
    }
}

// ---- the leg

// A new leg: its name, its file, and its bytes that are not written yet.
#[derive(Drop)]
struct Leg<'a> {
    name: &'a [u8],
    file: File,
    bytes: [u8; OUT],
    held: usize,
    ghost within: { held ≤ 16384 },
}

impl<'a> Leg<'a> {
    // Makes it, which must be new.
    fn create(rt: &HostRuntime, name: &'a [u8]) -> Result<Leg<'a>, Told> {
        let file = files::or_tell(rt, name, files::create(rt, name))?;
        Ok(Leg {
            name,
            file,
            bytes: [0; OUT],
            held: 0,
        })
    }

    // Bytes at the file's place.
    fn put(&self, rt: &HostRuntime, bytes: &[u8]) -> Result<(), Told> {
        files::or_tell(rt, self.name, files::write_all(&self.file, bytes))
    }

    // Writes the bytes that are not written yet.
    fn flush(&mut self, rt: &HostRuntime) -> Result<(), Told>
        ensures { self.new.held ≡ 0 }
    {
        let n = self.held;
        self.held = 0;
        let view: &[u8] = &self.bytes;
        self.put(rt, &view[..n])
    }

    // Bytes behind those that are not written yet, which are written where there is no room.
    fn keep(&mut self, rt: &HostRuntime, bytes: &[u8]) -> Result<(), Told>
        requires { length bytes.now ≤ 16384 }
    {
        if OUT - self.held < bytes.len() {
            self.flush(rt)?;
        }
        self.held = print::put(bytes, self.held, &mut self.bytes);
        Ok(())
    }

    // The header of a WAV file of so many samples, if it can have them.
    fn begin(&self, rt: &HostRuntime, law: Law, samples: u64) -> Result<(), Told> {
        if samples > wav::MOST as u64 {
            files::say(
                rt,
                self.name,
                b"more than 4,294,967,244 samples, which a WAV file can't have: write them as bytes",
            );
            return Err(Told);
        }
        let mut head = [0u8; HEADER];
        let tag = match law {
            Law::A => wav::A_LAW,
            Law::Mu => wav::MU_LAW,
        };
        wav::header(tag, 8, samples as u32, &mut head);
        self.put(rt, &head)
    }

    // Has the system keep it: an error that comes late, as of a disk across a network, is seen here.
    fn sync(&self, rt: &HostRuntime) -> Result<(), Told> {
        files::or_tell(rt, self.name, self.file.sync_all())
    }
}

// ---- the text

// A text of samples of this law.
#[derive(Drop)]
struct Text<'a> {
    law: Law,
    file: Input,
    name: &'a [u8],
}

// Where a text is: its bytes at hand, the lines that were begun, the samples that were taken, and whether their total was, so that only the end may follow.
#[derive(Clone, Copy)]
struct Place {
    source: Source,
    lines: u32,
    samples: u64,
    total: bool,
}

// Whether a text that begins as a total is that of so many samples.
fn is_total(text: &[u8], samples: u64) -> bool {
    let shown = InlineText::<20>::of(samples);
    let digits = shown.as_str().as_bytes();
    match text.strip_prefix(&OPENING) {
        Some(number) => match number.strip_prefix(digits) {
            Some(rest) => rest == b"))".as_slice(),
            None => false,
        },
        None => false,
    }
}

// The bytes of a line of samples, without its line feed, at the front of `bytes`; how many.
fn read_line(law: Law, text: &[u8], bytes: &mut [u8; SAMPLES]) -> Result<usize, Fault>
    ensures { IfOk result (λ n. n ≤ 80) }
{
    match leg::bytes_of(u32::from(law), text, bytes) {
        Ok(n) => Ok(n),
        Err(Refusal::NoTableValue) => Err(Fault::NoByte),
        Err(_) => Err(Fault::NoLine),
    }
}

impl Place {
    // The line that was begun last is refused.
    fn refused(&self, why: Fault) -> Stop {
        Stop::Refused {
            line: self.lines,
            why,
        }
    }

    // No whole line is at hand: a read, or the end. Whether a further turn follows.
    fn lack(&mut self, rt: &HostRuntime, text: &Text, input: &mut [u8]) -> Result<bool, Stop>
        requires { Inside self.old.source (length input.old) }
        ensures { Inside self.new.source (length input.old) }
    {
        let s = self.source;
        let left = s.to - s.from;
        if !s.ended && left < input.len() {
            let s = source::fill(rt, &text.file, text.name, s, input);
            self.source = s;
            return if s.good { Ok(true) } else { Err(Stop::Told) };
        }
        self.lines = line_step::one_more(self.lines);
        if left == 0 {
            return Ok(false);
        }
        Err(self.refused(if s.ended { Fault::NoFeed } else { Fault::Long }))
    }

    // A line, without its line feed.
    fn take(
        &mut self,
        rt: &HostRuntime,
        law: Law,
        leg: &mut Option<Leg>,
        line: &[u8],
    ) -> Result<(), Stop>
        ensures { self.new.source ≡ self.old.source }
    {
        self.lines = line_step::one_more(self.lines);
        if self.total {
            return Err(self.refused(Fault::Behind));
        }
        if line.starts_with(&OPENING) {
            self.total = is_total(line, self.samples);
            return if self.total {
                Ok(())
            } else {
                Err(self.refused(Fault::OtherTotal))
            };
        }
        let mut bytes = [0u8; SAMPLES];
        let n = match read_line(law, line, &mut bytes) {
            Ok(n) => n,
            Err(why) => return Err(self.refused(why)),
        };
        self.samples = self.samples.wrapping_add(n as u64);
        if let Some(leg) = leg {
            leg.keep(rt, &bytes[..n])?;
        }
        Ok(())
    }

    // The next line, or a read where there is no whole one. Whether a further turn follows.
    fn turn(
        &mut self,
        rt: &HostRuntime,
        text: &Text,
        leg: &mut Option<Leg>,
        input: &mut [u8],
    ) -> Result<bool, Stop>
        requires { Inside self.old.source (length input.old) }
        ensures { Inside self.new.source (length input.old) }
    {
        let s = self.source;
        let from = s.from;
        let end = octets::find(input, from, s.to, 10);
        if end == s.to {
            return self.lack(rt, text, input);
        }
        self.source = source::used(s, end + 1 - from);
        self.take(rt, text.law, leg, &input[from..end])?;
        Ok(true)
    }
}

// All lines of a text.
fn lines(rt: &HostRuntime, text: &Text, leg: &mut Option<Leg>, p: &mut Place) -> Result<(), Stop>
    requires { Inside p.old.source 65536 }
{
    let mut input = [0u8; ROOM];
    for _ in 0..u64::MAX {
        if !p.turn(rt, text, leg, &mut input)? {
            return Ok(());
        }
    }
    Err(p.refused(Fault::NoLine))
}

// All lines of a text: tested, and written where there is a leg. How many samples they have.
fn pass(rt: &HostRuntime, text: &Text, leg: &mut Option<Leg>) -> Result<u64, Stop> {
    let mut p = Place {
        source: source::unread(),
        lines: 0,
        samples: 0,
        total: false,
    };
    let done = lines(rt, text, leg, &mut p);
    if let Err(Stop::Told) = done {
        return Err(Stop::Told);
    }
    if let Some(leg) = leg {
        leg.flush(rt)?;
    }
    done?;
    Ok(p.samples)
}

// A text that is refused: its form on standard output, and why on standard error.
fn refuse(rt: &HostRuntime, line: u32, why: Fault) {
    files::print_refused(rt, why.refusal().number(), line);
    files::say_line(rt, b"g711_leg", line, why.words());
}

// Moves a text to its first byte. Standard input is none.
fn to_start(text: &Input) -> io::Result<()> {
    match text {
        Input::Named(file) => files::to_start(file),
        Input::Standard(_) => Err(Error::from(ErrorKind::NotSeekable)),
    }
}

// ---- the text to the leg

// Reads a text of so many samples again and writes the leg. Err too where the text is another than before.
fn copy(rt: &HostRuntime, text: &Text, leg: &mut Option<Leg>, samples: u64) -> Result<(), Told> {
    files::or_tell(rt, text.name, to_start(&text.file))?;
    match pass(rt, text, leg) {
        Ok(n) if n == samples => Ok(()),
        Err(Stop::Told) => Err(Told),
        _ => {
            files::say(rt, text.name, b"has changed while it was read");
            Err(Told)
        }
    }
}

// Writes the leg, raw or a WAV file, whose samples have a byte behind them where their number is odd.
fn written(
    rt: &HostRuntime,
    text: &Text,
    wave: bool,
    leg: &mut Option<Leg>,
    samples: u64,
) -> Result<(), Told> {
    if wave && let Some(leg) = leg {
        leg.begin(rt, text.law, samples)?;
    }
    copy(rt, text, leg, samples)?;
    if let Some(leg) = leg {
        if wave && samples % 2 == 1 {
            leg.put(rt, b"\0")?;
        }
        leg.sync(rt)?;
    }
    Ok(())
}

// Makes the leg, and writes it. Where it can't be written whole it is removed again.
fn make(rt: &HostRuntime, text: Text, wave: bool, name: &[u8], samples: u64) {
    let Ok(leg) = Leg::create(rt, name) else {
        return;
    };
    let mut leg = Some(leg);
    let done = written(rt, &text, wave, &mut leg, samples);
    drop(leg);
    drop(text);
    if done.is_ok() {
        let _ = tell(rt, b"(written (samples ", samples);
    } else {
        let _ = files::or_tell(rt, name, files::remove(rt, name));
    }
}

// The samples of a text to a new leg, raw or a WAV file.
pub(crate) fn write(rt: &HostRuntime, law: Law, wave: bool, name: &[u8], leg: &[u8]) {
    if files::look(rt, name).is_ok_and(|seen| !seen.regular) {
        files::say(rt, name, b"not a regular file; it would be read twice");
        return;
    }
    let Ok(file) = files::opened(rt, name) else {
        return;
    };
    let text = Text { law, file, name };
    match pass(rt, &text, &mut None) {
        Ok(samples) => make(rt, text, wave, leg, samples),
        Err(Stop::Refused { line, why }) => refuse(rt, line, why),
        Err(Stop::Told) => {}
    }
}
