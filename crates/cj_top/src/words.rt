//! What the words of a command name outside.

ghost use Rattle.std.specs.Prelude.{◌↔◌, ℕ, List, map, string_bytes, IfSome, IsNone};
ghost use Rattle.cj_args.specs.Words.{AsksToServeAt, NamesConf};

use crate::files::Paths;
use cj_args::{address_word, conf_word};

/// The configuration's file and the address that the words name. None exactly where they ask for no work.
pub fn paths(words: &[String]) -> Option<Paths<'_>>
    ensures none { IsNone result ↔ ((conf : List ℕ) → NamesConf (map string_bytes words.now) conf → ⊥) }
    ensures conf { IfSome result (λ p. NamesConf (map string_bytes words.now) p.conf.now) }
    ensures address { IfSome result (λ p. IfSome p.address (λ address. (conf : List ℕ) × AsksToServeAt (map string_bytes words.now) conf address.now)) }
    ensures no_address { IfSome result (λ p. IsNone p.address → (conf address : List ℕ) → AsksToServeAt (map string_bytes words.now) conf address → ⊥) }
{
    match conf_word(words) {
        Some(conf) => Some(Paths {
            conf,
            address: address_word(words),
        }),
        None => None,
    }
}
