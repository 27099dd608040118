// Parts of a line's words. A word past the end reads as 0.
ghost use Rattle.std.specs.Prelude.{◌≡◌, [], ◌∷◌, ◌+◌, ◌*◌, length};
ghost use Rattle.basic_op.specs.Ops.{low16};
ghost use Rattle.laws.specs.Lists.{at};
ghost use Rattle.block.specs.Block.{part};
ghost use Rattle.replay.specs.Replay.{byte};

// Word `n` behind place `from`.
pub fn word(words: &[i16], from: usize, n: usize) -> i16
    ensures { result ≡ at words.now (from + n) }
{
    if from < words.len() && n < words.len() - from {
        words[from + n]
    } else {
        0
    }
}

// A word that holds a number without a sign.
pub fn number(words: &[i16], n: usize) -> u16
    ensures { result ≡ low16 (at words.now n) }
{
    basic_op::low16(block::word(words, n))
}

// The number of 32 bits in words n and n + 1, the upper half first.
pub fn wide(words: &[i16], n: usize) -> u32
    ensures { result ≡ 65536 * low16 (at words.now n) + low16 (at words.now (n + 1)) }
{
    65536 * (number(words, n) as u32) + basic_op::low16(word(words, n, 1)) as u32
}

// Fills `out` with the words from a place on.
pub fn fill(words: &[i16], from: usize, out: &mut [i16])
    ensures { out.new ≡ part words.now from (length out.old) }
{
    block::words(words, from, out);
}

// The words from a place on, as many as the array has.
pub fn array<const N: usize>(words: &[i16], from: usize) -> [i16; N]
    ensures { result ≡ part words.now from N }
{
    let mut out = [0; N];
    fill(words, from, &mut out);
    out
}

// A byte in a word.
fn byte(frame: &[i16], n: usize) -> u8
    ensures { result ≡ byte frame.now n }
{
    (number(frame, n) % 256) as u8
}

// The ten bytes of a frame's payload, behind its kind: listed, as the contract lists them.
pub fn payload(frame: &[i16]) -> [u8; 10]
    ensures { result ≡ byte frame.now 1 ∷ byte frame.now 2 ∷ byte frame.now 3 ∷ byte frame.now 4 ∷ byte frame.now 5 ∷ byte frame.now 6 ∷ byte frame.now 7 ∷ byte frame.now 8 ∷ byte frame.now 9 ∷ byte frame.now 10 ∷ [] }
{
    [
        byte(frame, 1),
        byte(frame, 2),
        byte(frame, 3),
        byte(frame, 4),
        byte(frame, 5),
        byte(frame, 6),
        byte(frame, 7),
        byte(frame, 8),
        byte(frame, 9),
        byte(frame, 10),
    ]
}
