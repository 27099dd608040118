// What the words of `depths` ask for beside those that `options` takes: `--frames N`, `--start MS`, `--to MS`, `--step MS`, `--lost N` and `--lost P%`. The program hands in its words one by one.
// The last of two equal options counts. The word behind an option is its value, whatever it is; the first value that can't be taken decides.
#![tactic(auto)]

ghost use Rattle.std.specs.Prelude.{◌≡◌};
ghost use Rattle.depth_options.specs.DepthOptions.{none, name, takes, marked, put, is_percent, fits, valued, next, most};

// The options.
#[derive(Clone, Copy, Debug, PartialEq, Eq)]
pub enum Setting {
    Frames,
    Start,
    To,
    Step,
    Lost,
}

// How many frames may be lost: so many, or percent of them.
#[derive(Clone, Copy, Debug, PartialEq, Eq)]
pub enum Lost {
    Count(u32),
    Percent(u32),
}

// The most frames that can be asked for: an hour of them.
pub const MOST_FRAMES: u32 = 360000;

// What was asked so far.
#[derive(Clone, Copy)]
pub struct Wanted {
    pub frames: Option<u32>,
    pub start: Option<u32>,
    pub to: u32,
    pub step: u32,
    pub lost: Lost,
    // The option whose value the next word is.
    pub awaits: Option<Setting>,
    // The option whose value can't be taken: it is no number, too large, or a step of 0.
    pub wrong: Option<Setting>,
}

// The option that a word names. By tests and no `match`: one with byte strings leaves the last arms with a goal for each letter.
fn name(word: &[u8]) -> Option<Setting>
    ensures { result ≡ name word.now }
{
    if text::same(word, b"--frames") {
        return Some(Setting::Frames);
    }
    if text::same(word, b"--start") {
        return Some(Setting::Start);
    }
    if text::same(word, b"--to") {
        return Some(Setting::To);
    }
    if text::same(word, b"--step") {
        return Some(Setting::Step);
    }
    if text::same(word, b"--lost") {
        return Some(Setting::Lost);
    }
    None
}

// Whether a value is a percentage: `%` is its last byte, and the option may have one.
#[tactic(auto, unfolding(crate::specs::DepthOptions::is_percent))]
fn is_percent(option: Setting, word: &[u8]) -> bool
    ensures { result ≡ is_percent option word.now }
{
    option == Setting::Lost && word.ends_with(b"%")
}

// Whether an option takes a number.
fn fits(option: Setting, percent: bool, v: u32) -> bool
    ensures { result ≡ fits option percent v }
{
    if percent {
        return v <= 100;
    }
    match option {
        Setting::Frames => v <= MOST_FRAMES,
        Setting::Step => 1 <= v,
        _ => true,
    }
}

impl Wanted {
    // Of no word.
    pub fn none() -> Wanted
        ensures { result ≡ none }
    {
        Wanted {
            frames: None,
            start: None,
            to: 200,
            step: 10,
            lost: Lost::Percent(1),
            awaits: None,
            wrong: None,
        }
    }

    // Whether a word is one of these options or the value that is awaited.
    pub fn takes(self, word: &[u8]) -> bool
        ensures { result ≡ takes self word.now }
    {
        self.awaits.is_some() | name(word).is_some()
    }

    // The same with the value of an option awaited, or not taken.
    fn marked(self, awaits: Option<Setting>, wrong: Option<Setting>) -> Wanted
        ensures { result ≡ marked self awaits wrong }
    {
        Wanted {
            awaits,
            wrong,
            ..self
        }
    }

    // The value of an option.
    fn put(self, option: Setting, percent: bool, v: u32) -> Wanted
        ensures { result ≡ put self option percent v }
    {
        let w = self.marked(None, None);
        match option {
            Setting::Frames => Wanted {
                frames: Some(v),
                ..w
            },
            Setting::Start => Wanted {
                start: Some(v),
                ..w
            },
            Setting::To => Wanted { to: v, ..w },
            Setting::Step => Wanted { step: v, ..w },
            Setting::Lost if percent => Wanted {
                lost: Lost::Percent(v),
                ..w
            },
            Setting::Lost => Wanted {
                lost: Lost::Count(v),
                ..w
            },
        }
    }

    // What is read of the value of an option.
    fn valued(self, option: Setting, percent: bool, value: Option<u32>) -> Wanted
        ensures { result ≡ valued self option percent value }
    {
        match value {
            Some(v) if fits(option, percent, v) => self.put(option, percent, v),
            _ => self.marked(None, Some(option)),
        }
    }

    // The next word. A word that is neither changes nothing.
    pub fn next(self, word: &[u8]) -> Wanted
        ensures { result ≡ next self word.now }
    {
        if self.wrong.is_some() {
            return self;
        }
        let Some(option) = self.awaits else {
            return self.marked(name(word), None);
        };
        if is_percent(option, word) {
            return self.valued(option, true, arrival_line::number(&word[..word.len() - 1]));
        }
        self.valued(option, false, arrival_line::number(word))
    }

    // How many of so many frames may be lost: a percentage is rounded down, since one frame more would exceed it.
    pub fn most(self, frames: u32) -> usize
        ensures { result ≡ most self frames }
    {
        match self.lost {
            Lost::Count(n) => n as usize,
            Lost::Percent(n) => frames as usize * n as usize / 100,
        }
    }
}
