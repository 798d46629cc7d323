//! The tokens of a text that are not read yet.

ghost use Rattle.std.specs.Prelude.{◌≡◌, drop, if◌then◌else◌};
ghost use Rattle.cj_sql.specs.Proving.Cursor.{Shows, TakesToken, ReadsAs};
ghost use Rattle.cj_sql.specs.Proving.Reader as spec;

use cj_lex::SqlError;
use cj_model::{Keyword, Name, Symbol, Text, Token};
use std::collections::VecDeque;
use std::marker::Model;

/// A cursor over tokens. Contracts see the list of the tokens that are not read yet.
#[derive(Drop)]
pub struct Tokens {
    rest: VecDeque<Token>,
}

impl Model for Tokens {
    ghost use Rattle.std.specs.Prelude.{List};
    ghost use Rattle.cj_model.specs.declared.token.Token.{Token};

    ghost Value = { List Token };

    ghost view = { λ tokens. tokens.rest.items };
}

#[tactic(auto, unfolding(crate::specs::Proving::Reader::same_word))]
fn same_word(a: Keyword, b: Keyword) -> bool
    ensures { result ≡ spec.same_word a b }
{
    a == b
}

#[tactic(auto, unfolding(crate::specs::Proving::Reader::same_symbol))]
fn same_symbol(a: Symbol, b: Symbol) -> bool
    ensures { result ≡ spec.same_symbol a b }
{
    a == b
}

impl Tokens {
    /// A cursor before the first of these tokens.
    pub fn new(rest: VecDeque<Token>) -> Tokens
        ensures { result ≡ rest.items }
    {
        Tokens { rest }
    }

    /// The next token; none at the end.
    fn front(&self) -> Option<&Token>
        ensures { Shows result self.now }
    {
        self.rest.front()
    }

    /// Takes the next token; none at the end.
    fn take(&mut self) -> Option<Token>
        ensures { TakesToken result self.old self.new }
    {
        self.rest.pop_front()
    }

    /// Whether the next token is this reserved word.
    pub fn sees_word(&self, word: Keyword) -> bool
        ensures { result ≡ spec.sees_word word self.now }
    {
        match self.front() {
            Some(Token::Word(found)) => same_word(*found, word),
            _ => false,
        }
    }

    /// Whether the next token is this symbol.
    pub fn sees_symbol(&self, symbol: Symbol) -> bool
        ensures { result ≡ spec.sees_symbol symbol self.now }
    {
        match self.front() {
            Some(Token::Symbol(found)) => same_symbol(*found, symbol),
            _ => false,
        }
    }

    /// Whether the next token is a number.
    pub fn sees_number(&self) -> bool
        ensures { result ≡ spec.sees_number self.now }
    {
        matches!(self.front(), Some(Token::Number(_)))
    }

    /// Whether the next token is a name.
    pub fn sees_name(&self) -> bool
        ensures { result ≡ spec.sees_name self.now }
    {
        matches!(self.front(), Some(Token::Name(_)))
    }

    /// Whether no token is left.
    pub fn sees_end(&self) -> bool
        ensures { result ≡ spec.sees_end self.now }
    {
        self.front().is_none()
    }

    /// Takes the next token if it is this reserved word, and says whether it was.
    pub fn eat_word(&mut self, word: Keyword) -> bool
        ensures found { result ≡ spec.sees_word word self.old }
        ensures rest { self.new ≡ (if result then drop 1 self.old else self.old) }
    {
        let found = self.sees_word(word);
        if found {
            self.take();
        }
        found
    }

    /// Takes the next token if it is this symbol, and says whether it was.
    pub fn eat_symbol(&mut self, symbol: Symbol) -> bool
        ensures found { result ≡ spec.sees_symbol symbol self.old }
        ensures rest { self.new ≡ (if result then drop 1 self.old else self.old) }
    {
        let found = self.sees_symbol(symbol);
        if found {
            self.take();
        }
        found
    }

    /// Takes the next token, a name. Fails with `Syntax` if it is none.
    #[tactic(auto, unfolding(crate::specs::Proving::Reader::expect_name))]
    pub fn name(&mut self) -> Result<Name, SqlError>
        ensures { ReadsAs spec.expect_name self.old result self.new }
    {
        match self.take() {
            Some(Token::Name(name)) => Ok(name),
            Some(_other) => Err(SqlError::Syntax),
            None => Err(SqlError::Syntax),
        }
    }

    /// Takes the next token, a number. Fails with `Syntax` if it is none.
    #[tactic(auto, unfolding(crate::specs::Proving::Reader::expect_number))]
    pub fn number(&mut self) -> Result<u64, SqlError>
        ensures { ReadsAs spec.expect_number self.old result self.new }
    {
        match self.take() {
            Some(Token::Number(number)) => Ok(number),
            Some(_other) => Err(SqlError::Syntax),
            None => Err(SqlError::Syntax),
        }
    }

    /// Takes the next token, a string, and gives its value. Fails with `Syntax` if it is none.
    #[tactic(auto, unfolding(crate::specs::Proving::Reader::expect_text))]
    pub fn text(&mut self) -> Result<Text, SqlError>
        ensures { ReadsAs spec.expect_text self.old result self.new }
    {
        match self.take() {
            Some(Token::Text(text)) => Ok(text),
            Some(_other) => Err(SqlError::Syntax),
            None => Err(SqlError::Syntax),
        }
    }

    /// Takes the next token, a symbol. Fails with `Syntax` if it is none.
    #[tactic(auto, unfolding(crate::specs::Proving::Reader::symbol_at))]
    pub fn symbol(&mut self) -> Result<Symbol, SqlError>
        ensures { ReadsAs spec.symbol_at self.old result self.new }
    {
        match self.take() {
            Some(Token::Symbol(symbol)) => Ok(symbol),
            Some(_other) => Err(SqlError::Syntax),
            None => Err(SqlError::Syntax),
        }
    }

    /// Takes the next token, this reserved word. Fails with `Syntax` if it is another.
    #[tactic(auto, unfolding(crate::specs::Proving::Reader::expect_word))]
    pub fn expect_word(&mut self, word: Keyword) -> Result<(), SqlError>
        ensures { ReadsAs (spec.expect_word word) self.old result self.new }
    {
        if self.eat_word(word) {
            Ok(())
        } else {
            Err(SqlError::Syntax)
        }
    }

    /// Takes the next token, this symbol. Fails with `Syntax` if it is another.
    #[tactic(auto, unfolding(crate::specs::Proving::Reader::expect_symbol))]
    pub fn expect_symbol(&mut self, symbol: Symbol) -> Result<(), SqlError>
        ensures { ReadsAs (spec.expect_symbol symbol) self.old result self.new }
    {
        if self.eat_symbol(symbol) {
            Ok(())
        } else {
            Err(SqlError::Syntax)
        }
    }
}
