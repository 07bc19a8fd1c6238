// Tokens.

/// What a token is: a name or keyword, a type variable, a number, a literal in quotes, or a mark such as `{` and `::`.
#[derive(Clone, Copy, Debug, PartialEq, Eq)]
pub enum TokenKind {
    Word,
    Variable,
    Number,
    Text,
    Mark,
}

/// A token of a text. Its own text is `text[from..to]`, in bytes from 0.
#[derive(Clone, Copy, Debug, PartialEq, Eq)]
pub struct Token {
    pub kind: TokenKind,
    pub from: u32,
    pub to: u32,
}
