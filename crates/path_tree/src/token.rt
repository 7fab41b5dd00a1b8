//! Tokens: what a source is made of.

ghost use Rattle.std.specs.Prelude.{◌≡◌};
ghost use Rattle.path_tree.specs.Lexeme.{same_symbol, symbol_text};

use crate::name::Name;

/// A special symbol: a sign or a reserved word.
#[derive(Clone, Copy, Debug)]
pub enum Symbol {
    /// `(`
    OpenParen,
    /// `)`
    CloseParen,
    /// `[`
    OpenBracket,
    /// `]`
    CloseBracket,
    /// `,`
    Comma,
    /// `;`
    Semicolon,
    /// `:`
    Colon,
    /// `:=`
    Assign,
    /// `=`
    Equal,
    /// `<>`
    Differ,
    /// `<`
    Less,
    /// `<=`
    LessEqual,
    /// `>`
    Greater,
    /// `>=`
    GreaterEqual,
    /// `+`
    Plus,
    /// `-`
    Minus,
    /// `append`
    Append,
    /// `array`
    Array,
    /// `begin`
    Begin,
    /// `const`
    Const,
    /// `count`
    Count,
    /// `else`
    Else,
    /// `end`
    End,
    /// `entry`
    Entry,
    /// `erase`
    Erase,
    /// `first`
    First,
    /// `function`
    Function,
    /// `has`
    Has,
    /// `if`
    If,
    /// `integer`
    Integer,
    /// `lookup`
    Lookup,
    /// `not`
    Not,
    /// `object`
    Object,
    /// `of`
    Of,
    /// `path`
    Path,
    /// `procedure`
    Procedure,
    /// `queue`
    Queue,
    /// `refuse`
    Refuse,
    /// `store`
    Store,
    /// `table`
    Table,
    /// `take`
    Take,
    /// `text`
    Text,
    /// `then`
    Then,
    /// `var`
    Var,
}

impl Symbol {
    /// How the symbol is written; a reserved word in lower case.
    pub fn text(&self) -> &'static [u8]
        ensures { result.now ≡ symbol_text self.now }
    {
        match self {
            Symbol::OpenParen => b"(",
            Symbol::CloseParen => b")",
            Symbol::OpenBracket => b"[",
            Symbol::CloseBracket => b"]",
            Symbol::Comma => b",",
            Symbol::Semicolon => b";",
            Symbol::Colon => b":",
            Symbol::Assign => b":=",
            Symbol::Equal => b"=",
            Symbol::Differ => b"<>",
            Symbol::Less => b"<",
            Symbol::LessEqual => b"<=",
            Symbol::Greater => b">",
            Symbol::GreaterEqual => b">=",
            Symbol::Plus => b"+",
            Symbol::Minus => b"-",
            Symbol::Append => b"append",
            Symbol::Array => b"array",
            Symbol::Begin => b"begin",
            Symbol::Const => b"const",
            Symbol::Count => b"count",
            Symbol::Else => b"else",
            Symbol::End => b"end",
            Symbol::Entry => b"entry",
            Symbol::Erase => b"erase",
            Symbol::First => b"first",
            Symbol::Function => b"function",
            Symbol::Has => b"has",
            Symbol::If => b"if",
            Symbol::Integer => b"integer",
            Symbol::Lookup => b"lookup",
            Symbol::Not => b"not",
            Symbol::Object => b"object",
            Symbol::Of => b"of",
            Symbol::Path => b"path",
            Symbol::Procedure => b"procedure",
            Symbol::Queue => b"queue",
            Symbol::Refuse => b"refuse",
            Symbol::Store => b"store",
            Symbol::Table => b"table",
            Symbol::Take => b"take",
            Symbol::Text => b"text",
            Symbol::Then => b"then",
            Symbol::Var => b"var",
        }
    }
}

/// What a token is.
#[derive(Debug, Drop)]
pub enum TokenKind {
    /// A sign or a reserved word.
    Symbol(Symbol),
    /// A number without sign, 0 to 4294967295.
    Number(u32),
    /// An identifier that is no reserved word.
    Name(Name),
    /// The content of a string of at most 1000 bytes of 32..=126, a doubled apostrophe made single.
    Text(Vec<u8>),
    /// The end of the source, with an empty span there.
    EndMark,
}

/// A token and its span: it stands in its source from byte `start` up to, not including, byte `end`.
#[derive(Debug, Drop)]
pub struct Token {
    pub kind: TokenKind,
    pub start: usize,
    pub end: usize,
}

/// Whether two symbols are the same.
pub fn is_same_symbol(a: Symbol, b: Symbol) -> bool
    ensures { result ≡ same_symbol a b }
{
    a as u8 == b as u8
}
