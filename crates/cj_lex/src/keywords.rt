//! Reserved words, found without a copy.

ghost use Rattle.std.specs.Prelude.{◌≡◌, map};
ghost use Rattle.cj_model.specs.Sql.Lexical as lexical;

use cj_model::{KEYWORDS, Keyword};

fn lookup(mut table: &[(&[u8], Keyword)], word: &[u8]) -> Option<Keyword>
    ensures { result ≡ lexical.find_keyword (map (λ entry. (entry.0.now, entry.1)) table.entry.now) word.now }
{
    while let [entry, rest @ ..] = table {
        if entry.0 == word {
            return Some(entry.1);
        }
        table = rest;
    }
    None
}

/// The reserved word with this spelling in lower case; none for other bytes.
#[tactic(auto, unfolding(cj_model::specs::Sql::Lexical::keyword))]
pub fn keyword(word: &[u8]) -> Option<Keyword>
    ensures { result ≡ lexical.keyword word.now }
{
    lookup(&KEYWORDS, word)
}
