//! A text of JSON (RFC 8259) that grows token by token.

ghost use Rattle.std.specs.Prelude.{◌≡◌, ◌∷◌, [], IfSome};
ghost use Rattle.ripngd_control.specs.Common.{Grows, IsPrintable, IsWholeText, boolean, json_tokens, key, number_of, string, token_of};

use json::{Token, Writer};
use std::alloc::Global;
use std::fmt::Display;

/// A text that grows until memory runs out. Only at its end it is asked whether it did.
#[derive(Drop)]
pub(crate) struct JsonText {
    alloc: Global,
    writer: Writer,
    /// Whether memory ran out.
    refused: bool,
}

impl JsonText {
    /// An empty text.
    pub(crate) fn new(alloc: Global) -> JsonText
        ensures before { result.writer.before ≡ [] }
        ensures tokens { result.writer.tokens ≡ [] }
    {
        JsonText {
            alloc,
            writer: Writer::new(Vec::new(alloc)),
            refused: false,
        }
    }

    /// Writes a token, with the comma that it wants before it.
    pub(crate) fn token(&mut self, token: Token<'_>)
        requires { IsPrintable (token_of token) }
        ensures { Grows self.old self.new (token_of token.entry ∷ []) }
    {
        self.refused |= self.writer.token(token).is_err();
    }

    /// Writes a number.
    pub(crate) fn number(&mut self, count: u64)
        ensures { Grows self.old self.new (json_tokens (number_of count)) }
    {
        self.refused |= self.writer.u64(count).is_err();
    }

    /// Writes a member that is a number.
    pub(crate) fn count(&mut self, name: &str, count: u64)
        ensures { Grows self.old self.new (key name.now ∷ json_tokens (number_of count)) }
    {
        self.token(Token::Key(name));
        self.number(count);
    }

    /// Writes a member that says yes or no.
    pub(crate) fn flag(&mut self, name: &str, is_so: bool)
        ensures { Grows self.old self.new (key name.now ∷ json_tokens (boolean is_so)) }
    {
        self.token(Token::Key(name));
        self.token(Token::Bool(is_so));
    }

    /// Writes a string: what a value prints.
    fn string<T: Display>(&mut self, value: &T)
        ensures { IfSome (T.output value.now) (λ text. Grows self.old self.new (json_tokens (string text))) }
    {
        match format!(in self.alloc; "{value}") {
            Ok(text) => self.token(Token::String(text.as_str())),
            Err(_) => self.refused = true,
        }
    }

    /// Writes a member that is what a value prints.
    pub(crate) fn printed<T: Display>(&mut self, name: &str, value: &T)
        ensures { IfSome (T.output value.now) (λ text. Grows self.old self.new (key name.now ∷ json_tokens (string text))) }
    {
        self.token(Token::Key(name));
        self.string(value);
    }

    /// The bytes of the whole text, or `None` if memory ran out.
    pub(crate) fn whole(self) -> Option<Vec<u8>>
        ensures { IfSome result (λ text. IsWholeText self text.items) }
    {
        if self.refused {
            return None;
        }
        Some(self.writer.into_inner())
    }
}
