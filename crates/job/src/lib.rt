// Jobs that are stopped and resumed: the job file, which is written aside and renamed, and where a resumed job reads and writes.
#![tactic(auto)]

pub mod names;
pub mod parts;

ghost use Rattle.std.specs.Prelude.{◌≡◌, ◌≤◌, ◌++◌, length, take, IfOk};
ghost use Rattle.refusal.specs.Refusal.{code, numbered};
ghost use Rattle.crc32.specs.Crc32.{crc32};
ghost use Rattle.words.specs.Words.{number_bytes, numbers_bytes};
ghost use Rattle.job.specs.Job.{state_at, sum_at, file_length, start, widths, head, state_and_counts, pack, fields, counts, place, sum_fits, known, fits, check, Answer, read};

use count::{Counts, NUMBERS};
use line::{LONGEST, SHORTEST};
use print::{FRAME_LEAST, FRAME_ROOM};
use refusal::Refusal;

// Where a stopped job goes on, beside its state block.
#[derive(Clone, Copy)]
pub struct Saved {
    pub counts: Counts,
    // How many lines were taken, and how many bytes of the call they are.
    pub lines: u32,
    pub at: u64,
    // How many bytes of the output are written.
    pub written: u64,
    // The CRC-32 of the table file that the job was begun with, and of the bytes of the call that were taken.
    pub tables: u32,
    pub call: u32,
}

// `HDMK`, low byte first.
const TAG: u64 = 0x4b4d4448;

// Raised whenever a field gets another meaning.
const VERSION: u64 = 2;

// How many numbers the head has, and how many bytes each of them.
const HEAD: usize = 7;

const WIDTHS: [usize; HEAD] = [4, 4, 8, 8, 4, 4, 4];

// Where the state, the counts and the check sum begin, and how long the file is.
const STATE_AT: usize = 36;

const COUNTS_AT: usize = STATE_AT + 468;

const SUM_AT: usize = COUNTS_AT + 4 * NUMBERS;

pub const LENGTH: usize = SUM_AT + 4;

// Where a new job begins, with tables of this CRC-32.
pub fn start(tables: u32) -> Saved
    ensures { result ≡ start tables }
{
    Saved {
        counts: Counts::none(),
        lines: 0,
        at: 0,
        written: 0,
        tables,
        call: 0,
    }
}

// The head at the front of `out`.
fn put_head(p: Saved, out: &mut [u8])
    requires { state_at ≤ length out.old }
    ensures { take state_at out.new ≡ numbers_bytes widths (head p) }
{
    let widths = WIDTHS;
    let values = [
        TAG,
        VERSION,
        p.at,
        p.written,
        p.tables as u64,
        p.call as u64,
        p.lines as u64,
    ];
    words::put_numbers(&widths, &values, &mut out[0..STATE_AT]);
}

// State and counts behind the head.
fn put_state(block: &[i16; 234], c: Counts, out: &mut [u8])
    requires { sum_at ≤ length out.old }
    ensures { take sum_at out.new ≡ take state_at out.old ++ state_and_counts block.now c }
{
    words::to_bytes(block, &mut out[STATE_AT..COUNTS_AT]);
    let widths = [4usize; NUMBERS];
    let values = c.numbers();
    words::put_numbers(&widths, &values, &mut out[COUNTS_AT..SUM_AT]);
}

// The check sum behind them.
fn put_sum(out: &mut [u8])
    requires { file_length ≤ length out.old }
    ensures { take file_length out.new ≡ take sum_at out.old ++ number_bytes 4 (crc32 (take sum_at out.old)) }
{
    let sum = crc32::crc32(&out[0..SUM_AT]);
    words::put_number(sum as u64, &mut out[SUM_AT..LENGTH]);
}

// The job file.
pub fn pack(block: &[i16; 234], p: Saved) -> [u8; LENGTH]
    ensures { result ≡ pack block.now p }
{
    let mut out = [0u8; LENGTH];
    put_head(p, &mut out);
    put_state(block, p.counts, &mut out);
    put_sum(&mut out);
    out
}

// The numbers of the head.
fn fields(bytes: &[u8]) -> [u64; HEAD]
    ensures { result ≡ fields bytes.now }
{
    let widths = WIDTHS;
    let mut values = [0u64; HEAD];
    words::numbers(&widths, bytes, &mut values);
    values
}

// The counts in a job file.
fn counts(bytes: &[u8]) -> Counts
    requires { length bytes.now ≡ file_length }
    ensures { result ≡ counts bytes.now }
{
    let widths = [4usize; NUMBERS];
    let mut values = [0u64; NUMBERS];
    words::numbers(&widths, &bytes[COUNTS_AT..SUM_AT], &mut values);
    Counts::of_numbers(values)
}

// The place in a job file.
fn place(bytes: &[u8]) -> Saved
    requires { length bytes.now ≡ file_length }
    ensures { result ≡ place bytes.now }
{
    let values = fields(bytes);
    Saved {
        counts: counts(bytes),
        lines: values[6] as u32,
        at: values[2],
        written: values[3],
        tables: values[4] as u32,
        call: values[5] as u32,
    }
}

fn sum_fits(bytes: &[u8]) -> bool
    requires { length bytes.now ≡ file_length }
    ensures { result ≡ sum_fits bytes.now }
{
    words::number(&bytes[SUM_AT..LENGTH]) == crc32::crc32(&bytes[0..SUM_AT]) as u64
}

fn known(bytes: &[u8]) -> bool
    ensures { result ≡ known bytes.now }
{
    let values = fields(bytes);
    (values[0] == TAG) & (values[1] == VERSION)
}

fn fits(p: Saved) -> bool
    ensures { result ≡ fits p }
{
    let c = p.counts;
    let lines = p.lines as u64;
    let least = (SHORTEST as u64 + 1) * lines;
    let most = (LONGEST as u64 + 1) * lines;
    let least_out = (FRAME_LEAST as u64) * lines;
    let most_out = (FRAME_ROOM as u64) * lines;
    c.fits()
        & (c.frames_are(p.lines)
            & ((least <= p.at)
                & ((p.at <= most) & ((least_out <= p.written) & (p.written <= most_out)))))
}

// The place in a job file, where it can be used with tables of this CRC-32; 3 where it has not 536 bytes; 22 where its check sum or its numbers don't fit; 25 where it has another form or
// version; 23 where it was begun with other tables; 4 where its predictor or its delay is out of range.
fn check(bytes: &[u8], tables: u32) -> Result<Saved, Refusal>
    ensures number { code result ≡ check bytes.now tables }
    ensures place { IfOk result (λ p. p ≡ place bytes.now) }
{
    if bytes.len() != LENGTH {
        return Err(Refusal::StateLength);
    }
    if !sum_fits(bytes) {
        return Err(Refusal::Damaged);
    }
    if !known(bytes) {
        return Err(Refusal::OtherVersion);
    }
    let p = place(bytes);
    if !fits(p) {
        return Err(Refusal::Damaged);
    }
    if p.tables != tables {
        return Err(Refusal::OtherTables);
    }
    let mut block = [0i16; 234];
    words::from_bytes(&bytes[STATE_AT..COUNTS_AT], &mut block);
    state::state_check(&block)?;
    Ok(p)
}

// Reads a job file, with tables of this CRC-32 at hand: where the job goes on, and the state block written; or why it is refused, and the block as it was.
pub fn read(bytes: &[u8], tables: u32, block: &mut [i16; 234]) -> Result<Saved, Refusal>
    ensures { Answer.answer (numbered result) block.new ≡ read bytes.now tables block.old }
{
    let place = check(bytes, tables)?;
    words::from_bytes(&bytes[STATE_AT..COUNTS_AT], block);
    Ok(place)
}
