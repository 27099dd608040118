// What the words of a command line ask for: `--help`, `--version`, `--tables FILE`, and operands. The program hands in its words one by one.
#![tactic(auto)]

ghost use Rattle.std.specs.Prelude.{◌≡◌, cond, false, ◌<◌, eqb, Some};
ghost use Rattle.options.specs.Options.{none, settled, no_path, decided, with_tables, with_operand, option, next, ended};

// What a line asks for; from File on, why it can't be taken.
#[derive(Clone, Copy, Debug, PartialEq, Eq)]
pub enum What {
    Run,
    Help,
    Version,
    // `--tables` without its file, also while the next word is awaited.
    File,
    // `--tables` given twice.
    Twice,
    // Another word that begins with `-`.
    Unknown,
    // More operands than the program takes.
    Many,
    // Fewer than it needs.
    Few,
    // A word that is empty, or longer than a path can be.
    Unfit,
}

// What was asked so far, and the number of the argument that decided it; the number of the table file's argument; how many operands there are, and the numbers of the first four.
#[derive(Clone, Copy)]
pub struct Asked {
    pub what: What,
    pub word: Option<usize>,
    pub tables: Option<usize>,
    pub operands: usize,
    pub first: Option<usize>,
    pub second: Option<usize>,
    pub third: Option<usize>,
    pub fourth: Option<usize>,
}

// Whether a word is empty, or longer than a path can be: 4,095 bytes.
#[tactic(auto, unfolding(crate::specs::Options::no_path))]
fn no_path(word: &[u8]) -> bool
    ensures { result ≡ no_path word.now }
{
    (word.len() < 1) | (4095 < word.len())
}

// The new number where n operands stand before it, else the old one.
fn number(n: usize, before: usize, new: usize, old: Option<usize>) -> Option<usize>
    ensures { result ≡ cond (eqb n before) (Some new) old }
{
    if n == before { Some(new) } else { old }
}

// What a word asks for that is no operand, with the table file's argument so far; none where it is one.
fn option(tables: Option<usize>, word: &[u8]) -> Option<What>
    requires { no_path word.now ≡ false }
    ensures { result ≡ option tables word.now }
{
    // Not `==` nor arms of a `match`: that asks for `.as_slice()` at each word, and these split the last arms into 32 cases.
    if text::same(word, b"--help") {
        return Some(What::Help);
    }
    if text::same(word, b"--version") {
        return Some(What::Version);
    }
    if text::same(word, b"--tables") {
        if tables.is_none() {
            return Some(What::File);
        }
        return Some(What::Twice);
    }
    if word[0] == b'-' {
        return Some(What::Unknown);
    }
    None
}

impl Asked {
    // Of no word.
    pub fn none() -> Asked
        ensures { result ≡ none }
    {
        Asked {
            what: What::Run,
            word: None,
            tables: None,
            operands: 0,
            first: None,
            second: None,
            third: None,
            fourth: None,
        }
    }

    // Whether no further word changes what is asked.
    #[tactic(auto, unfolding(crate::specs::Options::settled))]
    pub fn settled(self) -> bool
        ensures { result ≡ settled self }
    {
        !matches!(self.what, What::Run | What::File)
    }

    // Word i decides what is asked.
    fn decided(self, what: What, i: Option<usize>) -> Asked
        ensures { result ≡ decided self what i }
    {
        Asked {
            what,
            word: i,
            ..self
        }
    }

    // Word i is the table file.
    fn with_tables(self, i: usize) -> Asked
        ensures { result ≡ with_tables self i }
    {
        Asked {
            what: What::Run,
            word: Some(i),
            tables: Some(i),
            ..self
        }
    }

    // Word i is one operand more.
    fn with_operand(self, most: usize, i: usize) -> Asked
        requires { self.operands < most }
        ensures { result ≡ with_operand self i }
    {
        let n = self.operands;
        Asked {
            what: What::Run,
            word: Some(i),
            tables: self.tables,
            operands: n + 1,
            first: number(n, 0, i, self.first),
            second: number(n, 1, i, self.second),
            third: number(n, 2, i, self.third),
            fourth: number(n, 3, i, self.fourth),
        }
    }

    // The next word, argument i, of a program that takes at most so many operands.
    pub fn next(self, most: usize, i: usize, word: &[u8]) -> Asked
        ensures { result ≡ next self most i word.now }
    {
        if self.settled() {
            return self;
        }
        if no_path(word) {
            return self.decided(What::Unfit, Some(i));
        }
        if self.what == What::File {
            return self.with_tables(i);
        }
        if let Some(what) = option(self.tables, word) {
            return self.decided(what, Some(i));
        }
        if self.operands < most {
            return self.with_operand(most, i);
        }
        self.decided(What::Many, Some(i))
    }

    // Behind the last word, of a program that needs at least so many operands.
    pub fn ended(self, least: usize) -> Asked
        ensures { result ≡ ended self least }
    {
        if self.what == What::Run && self.operands < least {
            return self.decided(What::Few, None);
        }
        self
    }
}
