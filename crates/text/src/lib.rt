// What the forms of text share (01, "The call text and the program"): hexadecimal digits and their values, whether two texts are the same, and whether one begins with the other. Its definitions have texts as lists of bytes.
#![tactic(auto)]

ghost use Rattle.std.specs.Prelude.{◌≡◌, ◌%◌, ◌<◌};
ghost use Rattle.laws.specs.Bytes.{same};
ghost use Rattle.laws.specs.Digits.{digit, is_digit, value};
ghost use Rattle.text.specs.Text.{starts};

// The digit of a number's low four bits.
pub fn digit(v: u16) -> u8
    ensures { result ≡ digit (v % 16) }
{
    let low = (v % 16) as u8;
    if low < 10 {
        b'0' + low
    } else {
        b'a' + (low - 10)
    }
}

// Whether a byte is a digit, 0-9 or a-f.
#[tactic(auto, using(std::proofs::lemmas::Bool::Decides::nat_tests), unfolding(laws::specs::Digits::is_digit))]
pub fn is_digit(b: u8) -> bool
    ensures { result ≡ is_digit b }
{
    matches!(b, b'0'..=b'9' | b'a'..=b'f')
}

// The value of a digit; 0 of any other byte.
#[tactic(auto, using(std::proofs::lemmas::Bool::Decides::nat_tests), unfolding(laws::specs::Digits::value))]
pub fn value(b: u8) -> u8
    ensures { (result ≡ value b) × (result < 16) }
{
    match b {
        b'0'..=b'9' => b - b'0',
        b'a'..=b'f' => b - b'a' + 10,
        _ => 0,
    }
}

// Whether two texts are the same: `==` by the name that contracts and theorems above use, as is `starts_with` below.
pub fn same(a: &[u8], b: &[u8]) -> bool
    ensures { result ≡ same a.now b.now }
{
    a == b
}

// Whether a text begins with another.
pub fn starts(text: &[u8], with: &[u8]) -> bool
    ensures { result ≡ starts with.now text.now }
{
    text.starts_with(with)
}
