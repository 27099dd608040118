// How many values of each kind were compared, and how many differ, in 32 rows.
ghost use Rattle.std.specs.Prelude.{◌≡◌, not, ◌+◌, ◌<◌, min, eqb, replicate};
ghost use Rattle.basic_op.specs.Ops.{low16};
ghost use Rattle.laws.specs.Lists.{at};
ghost use Rattle.replay.specs.Replay.{count_at, count, unequal, compare, compared, differ};

use crate::part;

// Row r counts the values that were compared at 2 r, and those that differ at 2 r + 1: one list, as the definition of `count` has it.
#[derive(Clone, Copy)]
pub struct Tally {
    pub counts: [u32; 64],
}

impl Tally {
    // Nothing compared.
    pub fn new() -> Tally
        ensures { result.counts ≡ replicate 64 0 }
    {
        Tally { counts: [0; 64] }
    }

    // Counts one more at a place, and no more than fits.
    fn count_at(&mut self, n: usize)
        requires { n < 64 }
        ensures { self.new.counts ≡ count_at n self.old.counts }
    {
        self.counts[n] = self.counts[n].saturating_add(1);
    }

    // Counts a value that differs or not. A row past the last counts none.
    pub fn count(&mut self, row: usize, differs: bool)
        ensures { self.new.counts ≡ count row differs self.old.counts }
    {
        if row < 32 {
            self.count_at(2 * row);
            if differs {
                self.count_at(2 * row + 1);
            }
        }
    }

    // Compares a word: by its lower 16 bits, as the definition `unequal` does.
    pub fn word(&mut self, row: usize, expected: i16, found: i16)
        ensures { self.new.counts ≡ count row (unequal expected found) self.old.counts }
    {
        let first = basic_op::low16(expected);
        let second = basic_op::low16(found);
        self.count(row, first != second);
    }

    // Compares a number without a sign with the word at a place.
    pub fn number(&mut self, row: usize, words: &[i16], n: usize, found: u16)
        ensures { self.new.counts ≡ count row (not (eqb (low16 (at words.now n)) found)) self.old.counts }
    {
        self.count(row, part::number(words, n) != found);
    }

    // Compares the words behind the first `skip` with those from a place on.
    pub fn tail(&mut self, row: usize, words: &[i16], from: usize, found: &[i16], skip: usize)
        ensures { self.new.counts ≡ compare row words.now from found.now skip self.old.counts }
    {
        for n in skip..found.len() {
            self.word(row, part::word(words, from, n - skip), found[n]);
        }
    }

    // Compares words with those from a place on.
    pub fn words(&mut self, row: usize, words: &[i16], from: usize, found: &[i16])
        ensures { self.new.counts ≡ compare row words.now from found.now 0 self.old.counts }
    {
        self.tail(row, words, from, found, 0);
    }

    // How many values of a row were compared.
    pub fn compared(&self, row: usize) -> u32
        ensures { result ≡ compared self.now.counts row }
    {
        if row < 32 { self.counts[2 * row] } else { 0 }
    }

    // How many of them differ.
    pub fn differ(&self, row: usize) -> u32
        ensures { result ≡ differ self.now.counts row }
    {
        if row < 32 {
            self.counts[2 * row + 1]
        } else {
            0
        }
    }
}
