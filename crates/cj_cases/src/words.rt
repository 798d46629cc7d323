//! The words of a command.

ghost use Rattle.std.specs.Prelude.{◌≡◌, IfOk};
ghost use Rattle.cj_cases.specs.Lines.{word_items, words_of};

use crate::cut::cut;
use cj_model::NoMemory;
use std::alloc::Global;

/// Returns the words of a text, which has one space between each two. `None` means that one of them
/// is empty or no UTF-8.
pub(crate) fn words_of(alloc: Global, text: &[u8]) -> Result<Option<Vec<String>>, NoMemory>
    ensures { IfOk result (λ words. word_items words ≡ words_of text.now) }
{
    let mut words = Vec::new(alloc);
    if text.is_empty() {
        return Ok(Some(words));
    }
    let mut rest = Some(text);
    while let Some(here) = rest {
        let (word, more) = cut(b' ', here);
        let Ok(word) = std::str::from_utf8(word) else {
            return Ok(None);
        };
        if word.is_empty() {
            return Ok(None);
        }
        words.push(String::from_str(alloc, word)?)?;
        rest = more;
    }
    Ok(Some(words))
}
