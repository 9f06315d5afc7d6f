/// A word that can't be a name.
#[derive(Clone, Copy, Debug, PartialEq, Eq)]
pub enum Reserved {
    Constants,
    Types,
    Inputs,
    Declarations,
    Definitions,
    Constraints,
    Proof,
    Obligations,
    Bool,
    Int,
    Signed,
    Unsigned,
    Enum,
    Sort,
    Struct,
    /// `true` or `TRUE`
    True,
    /// `false` or `FALSE`
    False,
    If,
    Then,
    Elif,
    Else,
    All,
    Some,
    Sum,
    Pre,
    /// `X`
    Next,
    /// `I`
    First,
}

/// An operator or a separator.
#[derive(Clone, Copy, Debug, PartialEq, Eq)]
pub enum Mark {
    /// `:=`
    Assign,
    /// `:`
    Colon,
    /// `;`
    Semicolon,
    /// `,`
    Comma,
    /// `(`
    Open,
    /// `)`
    Close,
    /// `[`
    OpenBracket,
    /// `]`
    CloseBracket,
    /// `{`
    OpenBrace,
    /// `}`
    CloseBrace,
    /// `.`
    Dot,
    /// `->`
    Implies,
    /// `<->`
    Same,
    /// `#!`
    Differ,
    /// `#`
    Or,
    /// `&`
    And,
    /// `~`
    Not,
    /// `=` or `==`
    Equal,
    /// `<>` or `!=`
    Unequal,
    /// `<`
    Less,
    /// `<=`
    LessEqual,
    /// `>`
    Greater,
    /// `>=`
    GreaterEqual,
    /// `+`
    Plus,
    /// `-`
    Minus,
    /// `*`
    Times,
    /// `/`
    Over,
    /// `%`
    Rest,
    /// `$min`
    Min,
    /// `$max`
    Max,
    /// `$abs`
    Abs,
}

/// What a token is.
#[derive(Clone, Copy, Debug, PartialEq, Eq)]
pub enum TokenKind {
    /// A name that is plain or stands in quotes.
    Name,
    /// A number, with its value: at least 0, and at most `i128::MAX`.
    Number(i128),
    Reserved(Reserved),
    Mark(Mark),
}

/// A token, with the byte offsets of its two ends.
#[derive(Clone, Copy, Debug, PartialEq, Eq)]
pub struct Token {
    pub kind: TokenKind,
    pub from: usize,
    pub to: usize,
}
