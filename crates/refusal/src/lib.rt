// Why an operation is refused (01, "Operations and their refusals", and the change requests): one name for each number of the list. The Rust library has those of its calls under the same names.
#![tactic(auto)]

ghost use Rattle.std.specs.Prelude.{◌≡◌};
ghost use Rattle.refusal.specs.Refusal.{number, code};

// Each with 01's number, which may stand for like conditions of several operations; the operation says which is its own.
#[derive(Clone, Copy, Debug, PartialEq, Eq)]
pub enum Refusal {
    // The table block isn't 1,880 words.
    TableLength = 1,
    // Its initial delay is outside 19..144.
    TableDelay = 2,
    // A state block isn't 234 words, the memory of a comparison not 2,203, or a state file not of its length.
    StateLength = 3,
    // The predictor or the delay of a state block, or the carried delay, is out of range.
    StateValues = 4,
    // The kind of frame is above 3.
    Kind = 5,
    // The payload hasn't the length of its kind, or there are not ten bytes for fields.
    PayloadLength = 6,
    // There isn't the room that the results take, or two lists that belong together are not of one length.
    OutputLength = 7,
    // There are not as many numbers as fields.
    ReceiverLength = 8,
    // A line isn't of its form.
    LineForm = 9,
    // A count is at its limit.
    CountLimit = 10,
    // The room for a line's payload isn't ten bytes.
    LineRoom = 11,
    // The length of an RTP payload leaves a remainder other than 0 or 2 by ten.
    PayloadRemainder = 12,
    // The index isn't below the number of its frames.
    FrameIndex = 13,
    // A field exceeds its width.
    FieldWidth = 15,
    // There is no such law of G.711.
    OtherLaw = 16,
    // A sample isn't a table value of the law.
    NoTableValue = 17,
    // A conference hasn't 1 to 8 legs of 80 samples.
    LegsLength = 19,
    // There are more than 4,096 frames or arrivals.
    PlayoutLimit = 20,
    // The number of an arrival isn't below the number of frames.
    ArrivalNumber = 21,
    // A state file is damaged.
    Damaged = 22,
    // A state file was begun with other tables.
    OtherTables = 23,
    // The number of a rule isn't 1 to 5.
    NoRule = 24,
    // A state file is another version's.
    OtherVersion = 25,
    // A state file was begun with another call.
    OtherCall = 26,
    // An output isn't the job's.
    OtherOutput = 27,
    // Names of files can't be used for a job.
    Names = 28,
}

impl Refusal {
    // 01's number.
    pub fn number(self) -> u32
        ensures { result ≡ number self }
    {
        self as u32
    }
}

// 01's number of an answer: 0 for success.
pub fn code<T: Drop>(answer: Result<T, Refusal>) -> u32
    ensures { result ≡ code answer }
{
    match answer {
        Ok(_) => 0,
        Err(r) => r.number(),
    }
}
