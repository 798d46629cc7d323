//! Parts of a text.

ghost use Rattle.std.specs.Prelude.{◌≡◌, ◌<◌, ◌==◌, length, IfSome};
ghost use Rattle.std.specs.Option.{option_copied};
ghost use Rattle.cj_cases.specs.Lines.{before, behind, behind_word, first_word};

/// Returns what comes before the first such byte, and what comes after it. Without such a byte
/// these are all and none.
pub(crate) fn cut(byte: u8, text: &[u8]) -> (&[u8], Option<&[u8]>)
    ensures before { result.0.now ≡ before byte text.now }
    ensures behind { option_copied result.1 ≡ behind byte text.now }
    ensures shorter { IfSome result.1 (λ more. length more.now < length text.now) }
{
    for (at, b) in text.iter().enumerate() {
        if *b == byte {
            let (front, rest) = text.split_at(at);
            let (_, rest) = rest.split_at(1);
            return (front, Some(rest));
        }
    }
    (text, None)
}

/// Returns the first word, and what follows the space after it; nothing follows if there is no
/// space.
pub(crate) fn cut_word(line: &[u8]) -> (&[u8], &[u8])
    ensures word { result.0.now ≡ first_word line.now }
    ensures rest { result.1.now ≡ behind_word line.now }
{
    match cut(b' ', line) {
        (word, Some(rest)) => (word, rest),
        (word, None) => (word, &[]),
    }
}
