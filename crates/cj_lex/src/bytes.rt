//! Classes of bytes.

ghost use Rattle.std.specs.Prelude.{◌≡◌, ◌≤◌, length};
ghost use Rattle.cj_lex.specs.Proving.Cut as cut;

/// The classes of bytes that tokens consist of.
#[derive(Clone, Copy)]
pub enum Class {
    Blank,
    Digit,
    /// The first byte of a word.
    Letter,
    /// A later byte of a word.
    Word,
}

/// Whether the byte is of the class.
pub fn is_in(class: Class, b: u8) -> bool
    ensures { result ≡ cut.is_in class b }
{
    match class {
        Class::Blank => b == b' ' || b == b'\t' || b == b'\n' || b == b'\r',
        Class::Digit => b.is_ascii_digit(),
        Class::Letter => b.is_ascii_alphabetic() || b == b'_',
        Class::Word => b.is_ascii_alphabetic() || b == b'_' || b.is_ascii_digit(),
    }
}

/// Whether the text begins with a byte of the class.
pub fn begins(class: Class, text: &[u8]) -> bool
    ensures { result ≡ cut.begins class text.now }
{
    match text {
        [] => false,
        [b, ..] => is_in(class, *b),
    }
}

/// The number of bytes at the front of the text that are of the class.
#[tactic(auto, unfolding(crate::specs::Proving::Cut::count_of_class))]
pub fn count(class: Class, text: &[u8]) -> usize
    ensures value { result ≡ cut.count_of_class class text.now }
    ensures within { result ≤ length text.now }
{
    text.iter().take_while(|b| is_in(class, **b)).count()
}
