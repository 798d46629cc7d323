//! Tokens of SQL.

use crate::name::Name;
use crate::text::Text;

/// A reserved word.
#[derive(Clone, Copy, PartialEq, Eq)]
pub enum Keyword {
    And,
    Asc,
    Begin,
    By,
    Commit,
    Count,
    Create,
    Delete,
    Desc,
    Drop,
    From,
    Group,
    Insert,
    Integer,
    Into,
    Key,
    Limit,
    Not,
    Now,
    Or,
    Order,
    Primary,
    Rand,
    Rollback,
    Select,
    Set,
    Sum,
    Table,
    Text,
    Update,
    Values,
    Where,
}

/// The reserved words in lower case.
pub const KEYWORDS: [(&[u8], Keyword); 32] = [
    (b"and", Keyword::And),
    (b"asc", Keyword::Asc),
    (b"begin", Keyword::Begin),
    (b"by", Keyword::By),
    (b"commit", Keyword::Commit),
    (b"count", Keyword::Count),
    (b"create", Keyword::Create),
    (b"delete", Keyword::Delete),
    (b"desc", Keyword::Desc),
    (b"drop", Keyword::Drop),
    (b"from", Keyword::From),
    (b"group", Keyword::Group),
    (b"insert", Keyword::Insert),
    (b"integer", Keyword::Integer),
    (b"into", Keyword::Into),
    (b"key", Keyword::Key),
    (b"limit", Keyword::Limit),
    (b"not", Keyword::Not),
    (b"now", Keyword::Now),
    (b"or", Keyword::Or),
    (b"order", Keyword::Order),
    (b"primary", Keyword::Primary),
    (b"rand", Keyword::Rand),
    (b"rollback", Keyword::Rollback),
    (b"select", Keyword::Select),
    (b"set", Keyword::Set),
    (b"sum", Keyword::Sum),
    (b"table", Keyword::Table),
    (b"text", Keyword::Text),
    (b"update", Keyword::Update),
    (b"values", Keyword::Values),
    (b"where", Keyword::Where),
];

/// A symbol; `<>` and `!=` are one.
#[derive(Clone, Copy, PartialEq, Eq)]
pub enum Symbol {
    Open,
    Close,
    Comma,
    Dot,
    Star,
    Semi,
    Eq,
    Ne,
    Lt,
    Le,
    Gt,
    Ge,
    Plus,
    Minus,
}

/// A token.
#[derive(Drop)]
pub enum Token {
    Word(Keyword),
    /// A word that isn't reserved, in lower case.
    Name(Name),
    /// At most 2^63.
    Number(u64),
    /// A string's value, at most 4,096 bytes.
    Text(Text),
    Symbol(Symbol),
}
