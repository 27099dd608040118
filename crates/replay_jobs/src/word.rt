// The words of a step.
// Word k; empty where there are fewer.
pub(crate) fn word<'a>(line: &'a [u8], k: usize) -> &'a [u8] {
    line.split(|b| *b == b' ').nth(k).unwrap_or(&[])
}

// The number that word k is; job::parts::ALL where it is none.
pub(crate) fn number(line: &[u8], k: usize) -> u32 {
    job::parts::wanted(word(line, k)).unwrap_or(job::parts::ALL)
}
