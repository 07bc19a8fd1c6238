// The tokens of a text, and how far they are read.
ghost use Rattle.std.specs.Prelude.{◌≡◌, ◌-◌, take, IfOk, IfSome, length, drop, map, option_map, slice_range};
ghost use Rattle.std.specs.Str.{IsAscii};
ghost use Rattle.il_text.specs.declared.token.TokenKind.TheVariants.{Number};
ghost use Rattle.il_text.specs.Spelling.{IsWithinLimit};
ghost use Rattle.il_model.specs.Lexemes.{is_among, lexemes_of};
ghost use Rattle.il_parse.specs.declared.fault.ReadError.TheVariants as error;
ghost use Rattle.il_parse.specs.Reading.{Reads, sees, after, expect, expect_at, stuck_fault, fault_at, place_of_first, read_name, is_word_kind, unsupported_words};
ghost use Rattle.il_parse.specs.Members.{read_method_name};
ghost use Rattle.il_parse.specs.Cursor.{IsReadable, AreReadable, kind_of_first, bytes_of_first, first_entry, number_of_first, text_of_first, is_word_at, read_any};

use crate::fault::{Fault, ParseCause, ReadError};
use il_model::WrittenName;
use il_text::{Token, TokenKind};
use mn_outside::Name;
use std::alloc::{AllocError, Global};
use std::marker::Model;

// The words of the standard that this project leaves out.
const LEFT_OUT: [&[u8]; 7] = [
    b"filter",
    b"fault",
    b"finally",
    b"rethrow",
    b"endfinally",
    b"ldftn",
    b"ldvirtftn",
];

/// The tokens that are left. Contracts see them as lexemes, each with its place and its bytes.
#[derive(Drop)]
pub(crate) struct Cursor<'a> {
    text: &'a [u8],
    tokens: &'a [Token],
}

impl<'a> Model for Cursor<'a> {
    ghost use Rattle.std.specs.Prelude.{List};
    ghost use Rattle.il_model.specs.Lexemes.{Lexeme, lexemes_of};
    ghost use Rattle.il_parse.specs.Cursor.{AreReadable};

    ghost Value = { List Lexeme };

    ghost view = { λ c. lexemes_of c.text.now c.tokens.now };

    ghost invariant = { λ c. AreReadable c.text.now c.tokens.now };
}

impl<'a> Cursor<'a> {
    /// The tokens of this text, from the first on.
    pub fn new(text: &'a [u8], tokens: &'a [Token]) -> Cursor<'a>
        requires { AreReadable text.now tokens.now }
        ensures { result ≡ lexemes_of text.now tokens.now }
    {
        Cursor { text, tokens }
    }

    /// How many tokens are left.
    pub fn left(&self) -> usize
        ensures { result ≡ length self.now }
    {
        self.tokens.len()
    }

    /// The kind of the first token, if one is left.
    pub fn kind(&self) -> Option<TokenKind>
        ensures { result ≡ kind_of_first self.now }
    {
        match self.tokens {
            [token, ..] => Some(token.kind),
            [] => None,
        }
    }

    /// The place of the first token, or None at the end of the text.
    pub fn at(&self) -> Option<u32>
        ensures { result ≡ place_of_first self.now }
    {
        match self.tokens {
            [token, ..] => Some(token.from),
            [] => None,
        }
    }

    /// The bytes of the first token, of which there are none at the end of the text.
    pub fn bytes(&self) -> &'a [u8]
        ensures bytes { result.now ≡ bytes_of_first self.now }
        ensures ascii { IsAscii result.now }
    {
        match self.tokens {
            [token, ..] => bytes_of(self.text, *token),
            [] => &[],
        }
    }

    /// Whether the first token is this word or mark.
    #[tactic(auto, unfolding(crate::specs::Reading::sees))]
    pub fn sees(&self, spelling: &[u8]) -> bool
        ensures { result ≡ sees spelling.now self.now }
    {
        match self.tokens {
            [token, ..] => spelling == bytes_of(self.text, *token),
            [] => false,
        }
    }

    /// Whether the second token is this word or mark.
    #[tactic(auto, unfolding(crate::specs::Reading::sees))]
    pub fn sees_second(&self, spelling: &[u8]) -> bool
        ensures { result ≡ sees spelling.now (drop 1 self.now) }
    {
        match self.tokens {
            [_, token, ..] => spelling == bytes_of(self.text, *token),
            [_] | [] => false,
        }
    }

    /// The bytes of the first token, where it is a number.
    pub fn number(&self) -> Option<&'a [u8]>
        ensures value { option_map (λ bytes. bytes.now) result ≡ number_of_first self.now }
        ensures within { IfSome result (λ bytes. IsWithinLimit Number bytes.now) }
    {
        match self.tokens {
            [token, ..] => match token.kind {
                TokenKind::Number => Some(bytes_of(self.text, *token)),
                TokenKind::Word | TokenKind::Variable | TokenKind::Text | TokenKind::Mark => None,
            },
            [] => None,
        }
    }

    /// The bytes of the first token, where it is a text.
    pub fn text(&self) -> Option<&'a [u8]>
        ensures { option_map (λ bytes. bytes.now) result ≡ text_of_first self.now }
    {
        match self.tokens {
            [token, ..] => match token.kind {
                TokenKind::Text => Some(bytes_of(self.text, *token)),
                TokenKind::Word | TokenKind::Variable | TokenKind::Number | TokenKind::Mark => None,
            },
            [] => None,
        }
    }

    /// Goes on to the next token.
    pub fn advance(&mut self)
        ensures { self.new ≡ drop 1 self.old }
    {
        if let Some((_, rest)) = self.tokens.split_first() {
            self.tokens = rest;
        }
    }

    /// Takes this word or mark, if it comes next.
    #[tactic(auto, unfolding(crate::specs::Reading::after))]
    pub fn eat(&mut self, spelling: &[u8]) -> bool
        ensures found { result ≡ sees spelling.now self.old }
        ensures after { self.new ≡ after spelling.now self.old }
    {
        let found = self.sees(spelling);
        if found {
            self.advance();
        }
        found
    }

    /// Takes this word or mark, which has to come next.
    #[tactic(auto, unfolding(crate::specs::Reading::expect))]
    pub fn expect(&mut self, spelling: &[u8]) -> Result<(), ReadError>
        ensures { Reads (expect spelling.now self.old) result self.new }
    {
        if self.sees(spelling) {
            self.advance();
            Ok(())
        } else {
            Err(self.stuck())
        }
    }

    /// The place of this word, which has to come next and is taken.
    #[tactic(auto, unfolding(crate::specs::Reading::expect_at, crate::specs::Reading::sees))]
    pub fn expect_at(&mut self, word: &[u8]) -> Result<u32, ReadError>
        ensures { Reads (expect_at word.now self.old) result self.new }
    {
        let Some(at) = self.at() else {
            return Err(self.stuck());
        };
        if !self.sees(word) {
            return Err(self.stuck());
        }
        self.advance();
        Ok(at)
    }

    /// The same place, to be read again.
    pub fn here(&self) -> Cursor<'a>
        ensures { result ≡ self.now }
    {
        Cursor {
            text: self.text,
            tokens: self.tokens,
        }
    }

    /// The tokens in front of the last ones, of which there are so many.
    #[tactic(auto, using(crate::proofs::CallLemmas::readable_front, crate::proofs::CallLemmas::lexemes_front))]
    pub fn until(&self, last: usize) -> Cursor<'a>
        ensures { result ≡ take (length self.now - last) self.now }
    {
        let (front, _) = self.tokens.split_at(self.tokens.len().saturating_sub(last));
        Cursor {
            text: self.text,
            tokens: front,
        }
    }

    /// That the first token is refused for this cause.
    pub fn stop(&self, cause: ParseCause) -> ReadError
        ensures { result ≡ error.Fault (fault_at self.now cause) }
    {
        ReadError::Fault(Fault {
            at: self.at(),
            cause,
        })
    }

    /// That no rule goes on with the first token.
    #[tactic(auto, using(crate::proofs::ReadLemmas::stuck_is), unfolding(crate::specs::Reading::stuck_fault))]
    pub fn stuck(&self) -> ReadError
        ensures { result ≡ error.Fault (stuck_fault self.now) }
    {
        if is_left_out(self.bytes()) {
            self.stop(ParseCause::Unsupported)
        } else {
            self.stop(ParseCause::Syntax)
        }
    }

    /// The kind of the first token, and the token as a name with its place.
    pub fn first(&self, alloc: Global) -> Result<Option<(TokenKind, WrittenName)>, AllocError>
        ensures { IfOk result (λ found. found ≡ first_entry self.now) }
    {
        match self.tokens {
            [token, ..] => {
                let name = name_of(alloc, bytes_of(self.text, *token))?;
                let at = token.from;
                Ok(Some((token.kind, WrittenName { at, name })))
            }
            [] => Ok(None),
        }
    }

    /// Takes the first token as a name with its place, whatever its kind.
    #[tactic(auto, unfolding(crate::specs::Cursor::read_any))]
    pub fn take_name(&mut self, alloc: Global) -> Result<WrittenName, ReadError>
        ensures { Reads (read_any self.old) result self.new }
    {
        let Some(at) = self.at() else {
            return Err(self.stuck());
        };
        let name = name_of(alloc, self.bytes())?;
        self.advance();
        Ok(WrittenName { at, name })
    }

    /// Whether the first token is a word.
    pub fn is_word(&self) -> bool
        ensures { result ≡ is_word_at self.now }
    {
        match self.tokens {
            [token, ..] => is_word_kind(token.kind),
            [] => false,
        }
    }

    /// Takes a word as a name, which has to come next.
    #[tactic(auto, unfolding(crate::specs::Cursor::read_any, crate::specs::Reading::read_name, crate::specs::Reading::read_name_but))]
    pub fn name(&mut self, alloc: Global) -> Result<WrittenName, ReadError>
        ensures { Reads (read_name self.old) result self.new }
    {
        if self.is_word() {
            self.take_name(alloc)
        } else {
            Err(self.stuck())
        }
    }

    /// Takes the name of a method, which isn't `.cctor`.
    #[tactic(auto, unfolding(crate::specs::Members::read_method_name))]
    pub fn method_name(&mut self, alloc: Global) -> Result<WrittenName, ReadError>
        ensures { Reads (read_method_name self.old) result self.new }
    {
        if self.sees(b".cctor") {
            return Err(self.stop(ParseCause::Unsupported));
        }
        self.name(alloc)
    }
}

// The bytes of a token.
fn bytes_of(text: &[u8], token: Token) -> &[u8]
    requires { IsReadable text.now token }
    ensures { result.now ≡ slice_range text.now token.from token.to }
{
    &text[token.from as usize..token.to as usize]
}

fn is_word_kind(kind: TokenKind) -> bool
    ensures { result ≡ is_word_kind kind }
{
    match kind {
        TokenKind::Word => true,
        TokenKind::Variable | TokenKind::Number | TokenKind::Text | TokenKind::Mark => false,
    }
}

/// Whether this is a word of the standard that is left out.
pub(crate) fn is_left_out(word: &[u8]) -> bool
    ensures { result ≡ is_among unsupported_words word.now }
{
    is_among(&LEFT_OUT, word)
}

/// Whether a word is one of these.
pub(crate) fn is_among(mut words: &[&[u8]], word: &[u8]) -> bool
    ensures { result ≡ is_among (map (λ w. w.now) words.entry.now) word.now }
{
    while let [first, rest @ ..] = words {
        if *first == word {
            return true;
        }
        words = rest;
    }
    false
}

fn name_of(alloc: Global, bytes: &[u8]) -> Result<Name, AllocError>
    requires { IsAscii bytes.now }
    ensures { IfOk result (λ name. name ≡ bytes.now) }
{
    match str::from_utf8(bytes) {
        Ok(text) => Ok(Name::of(String::from_str(alloc, text)?)),
        Err(_) => unreachable!(),
    }
}
