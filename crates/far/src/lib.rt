// The far end's samples as a file has them: in the printed form of `decode`, as bare words of 16 bits, low byte first, or as such words in a WAV file.
#![tactic(auto)]

ghost use Rattle.std.specs.Prelude.{◌≡◌, ◌≤◌, length, IfSome};
ghost use Rattle.laws.specs.Bytes.{same};
ghost use Rattle.print.specs.Print.{pcm};
ghost use Rattle.far.specs.Far.{form, form_of, frame};
ghost use Rattle.far.specs.declared.Form.TheVariants.{Words, Printed};

use print::FRAME_ROOM;
use text::starts;

// The bytes of a frame's 80 words.
pub const WORDS_LENGTH: usize = 160;

// A frame's samples, and how many bytes they were.
#[derive(Clone, Copy)]
pub struct Found {
    pub bytes: usize,
    pub samples: [i16; 80],
}

// Whether a text is what is printed of these samples.
fn is_printed(text: &[u8], samples: &[i16; 80]) -> bool
    ensures { result ≡ same text.now (pcm samples.now) }
{
    let mut again = [0u8; FRAME_ROOM];
    print::pcm(samples, &mut again);
    text::same(text, &again)
}

// A frame at the front, in the printed form: a text that is printed of the samples it has.
fn printed(bytes: &[u8]) -> Option<Found>
    ensures { result ≡ frame Printed bytes.now }
{
    if bytes.len() < FRAME_ROOM {
        return None;
    }
    let text = &bytes[..FRAME_ROOM];
    let mut samples = [0i16; 80];
    pcm_line::digits(text, 80, &mut samples);
    if !is_printed(text, &samples) {
        return None;
    }
    Some(Found {
        bytes: FRAME_ROOM,
        samples,
    })
}

// A frame at the front, as words.
fn words(bytes: &[u8]) -> Option<Found>
    ensures { result ≡ frame Words bytes.now }
{
    if bytes.len() < WORDS_LENGTH {
        return None;
    }
    let mut samples = [0i16; 80];
    words::from_bytes(&bytes[..WORDS_LENGTH], &mut samples);
    Some(Found {
        bytes: WORDS_LENGTH,
        samples,
    })
}

// The forms, each with its number.
#[derive(Clone, Copy, Debug, PartialEq, Eq)]
pub enum Form {
    Words = 0,
    Printed = 1,
    Wav = 2,
}

// The form of a number; another number is that of words.
impl From<u32> for Form {
    ghost from_gives = { λ n f. f ≡ form_of n };

    fn from(n: u32) -> Self {
        match n {
            1 => Form::Printed,
            2 => Form::Wav,
            _ => Form::Words,
        }
    }
}

impl Form {
    // The form of a file that begins with these bytes.
    pub fn of(bytes: &[u8]) -> Form
        ensures { result ≡ form bytes.now }
    {
        if starts(bytes, b"RIFF") {
            return Form::Wav;
        }
        if starts(bytes, b"(pcm ") {
            return Form::Printed;
        }
        Form::Words
    }

    // The next frame of a file of this form, at the front of its bytes, or nothing where there is none.
    pub fn frame(self, bytes: &[u8]) -> Option<Found>
        ensures frame_value { result ≡ frame self bytes.now }
        ensures bytes_in_bounds { IfSome result (λ h. h.bytes ≤ length bytes.now) }
    {
        match self {
            Form::Printed => printed(bytes),
            Form::Words | Form::Wav => words(bytes),
        }
    }
}
