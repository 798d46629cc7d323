//! Symbols of one or two bytes.

ghost use Rattle.std.specs.Prelude.{◌≡◌};
ghost use Rattle.cj_lex.specs.Proving.Cut as cut;
ghost use Rattle.cj_lex.specs.Proving.Cut.{CutsSymbol};

use cj_model::Symbol;

fn begins_with(c: u8, text: &[u8]) -> bool
    ensures { result ≡ cut.begins_with c text.now }
{
    match text {
        [] => false,
        [b, ..] => *b == c,
    }
}

fn less(text: &[u8]) -> Option<(Symbol, &[u8])>
    ensures { CutsSymbol (cut.less text.now) result }
{
    if begins_with(b'=', text) {
        Some((Symbol::Le, &text[1..]))
    } else if begins_with(b'>', text) {
        Some((Symbol::Ne, &text[1..]))
    } else {
        Some((Symbol::Lt, text))
    }
}

fn greater(text: &[u8]) -> Option<(Symbol, &[u8])>
    ensures { CutsSymbol (cut.greater text.now) result }
{
    if begins_with(b'=', text) {
        Some((Symbol::Ge, &text[1..]))
    } else {
        Some((Symbol::Gt, text))
    }
}

/// The symbol that begins with a hyphen. Two hyphens, a comment in other SQL, are refused.
fn hyphen(text: &[u8]) -> Option<(Symbol, &[u8])>
    ensures { CutsSymbol (cut.hyphen text.now) result }
{
    if begins_with(b'-', text) {
        None
    } else {
        Some((Symbol::Minus, text))
    }
}

fn exclamation(text: &[u8]) -> Option<(Symbol, &[u8])>
    ensures { CutsSymbol (cut.exclamation text.now) result }
{
    if begins_with(b'=', text) {
        Some((Symbol::Ne, &text[1..]))
    } else {
        None
    }
}

#[tactic(auto, unfolding(crate::specs::Proving::Cut::single))]
fn single(b: u8) -> Option<Symbol>
    ensures { result ≡ cut.single b }
{
    match b {
        b'(' => Some(Symbol::Open),
        b')' => Some(Symbol::Close),
        b',' => Some(Symbol::Comma),
        b'.' => Some(Symbol::Dot),
        b'*' => Some(Symbol::Star),
        b';' => Some(Symbol::Semi),
        b'=' => Some(Symbol::Eq),
        b'+' => Some(Symbol::Plus),
        _ => None,
    }
}

/// Reads the symbol that begins with byte `b` and may continue in `text`; none if there is no such symbol.
#[tactic(auto, unfolding(crate::specs::Proving::Cut::cut_symbol))]
pub fn cut_symbol(b: u8, text: &[u8]) -> Option<(Symbol, &[u8])>
    ensures { CutsSymbol (cut.cut_symbol b text.now) result }
{
    match b {
        b'<' => less(text),
        b'>' => greater(text),
        b'-' => hyphen(text),
        b'!' => exclamation(text),
        _ => match single(b) {
            Some(symbol) => Some((symbol, text)),
            None => None,
        },
    }
}
