//! What is written as JSON (RFC 8259), and which JSON it is: values, and objects by their members; and records, in one of two forms.

ghost use Rattle.std.specs.Prelude.{◌<◌, ◌∷◌, [], ℕ, IfSome, OnErr, OnOk, length, take};
ghost use Rattle.ripng_trace.specs.Common.{Appends, Json, JsonMembers, boolean, member, no_members, object, string, IsPrintable, token_of, key, json_tokens, members_tokens, Grows, address_of, hex_of, list_of, number_of, option_of, prefix_of, WritesLess, WritesRecord, written_as};

mod records;

use json::{Token, Writer};
use prefix6::{Addr6, Prefix};
use router_core::Listed;
use std::alloc::{AllocError, Global};
use std::fmt::Display;
use std::io::{self, ErrorKind, Write};

/// A text that grows until memory runs out. Its writer asks only at its end whether it did.
#[derive(Drop)]
pub struct JsonText {
    alloc: Global,
    writer: Writer,
    /// Whether memory ran out.
    refused: bool,
}

impl JsonText {
    /// Writes a token, with the comma that it wants before it.
    pub fn token(&mut self, token: Token<'_>)
        requires { IsPrintable (token_of token) }
        ensures { Grows self.old self.new (token_of token.entry ∷ []) }
    {
        self.refused |= self.writer.token(token).is_err();
    }

    /// Writes a string: what a value prints.
    pub fn printed<T: Display>(&mut self, value: &T)
        ensures { IfSome (T.output value.now) (λ text. Grows self.old self.new (json_tokens (string text))) }
    {
        match format!(in self.alloc; "{value}") {
            Ok(text) => self.token(Token::String(text.as_str())),
            Err(_) => self.refused = true,
        }
    }

    /// Writes an object.
    pub fn object<M: Members>(&mut self, members: &M)
        ensures { Grows self.old self.new (json_tokens (object (M.members members.now))) }
    {
        self.token(Token::BeginObject);
        members.write_members(self);
    }

    /// Writes a member of an object.
    pub fn member<T: ToJson>(&mut self, name: &str, value: &T)
        ensures { Grows self.old self.new (key name.now ∷ json_tokens (T.json value.now)) }
    {
        self.token(Token::Key(name));
        value.write_json(self);
    }
}

/// What has a JSON value.
pub trait ToJson {
    // The JSON of a value.
    ghost json: { Self → Json };

    /// Writes the value.
    fn write_json(&self, text: &mut JsonText)
        ensures { Grows text.old text.new (json_tokens (json self.now)) };
}

/// Members of an object.
pub trait Members {
    ghost members: { Self → JsonMembers };

    /// Writes them in order, and ends the object.
    fn write_members(&self, text: &mut JsonText)
        ensures { Grows text.old text.new (members_tokens (members self.now)) };
}

impl Members for () {
    ghost members = { λ _. no_members };

    fn write_members(&self, text: &mut JsonText) {
        text.token(Token::EndObject);
    }
}

/// A member by its name and its value, and those after it.
impl<'a, T: ToJson, R: Members> Members for (&'static str, &'a T, R) {
    ghost members = { λ m. member m.0.now (T.json m.1.now) (R.members m.2) };

    fn write_members(&self, text: &mut JsonText) {
        text.member(self.0, self.1);
        self.2.write_members(text);
    }
}

/// Writes an object to a text.
macro_rules! object {
    ($text:ident, $($members:tt)*) => {
        $text.object(&$crate::to_json::members!($($members)*))
    };
}

/// Members of an object, in order: fields and references under their own names, and other references under the names before them, as in
/// `members!(self.line, "record": &"lost", datagram)`.
macro_rules! members {
    () => { () };
    ($name:literal: $value:expr $(, $($more:tt)*)?) => {
        ($name, $value, $crate::to_json::members!($($($more)*)?))
    };
    ($of:ident.$field:ident $(, $($more:tt)*)?) => {
        (stringify!($field), &$of.$field, $crate::to_json::members!($($($more)*)?))
    };
    ($value:ident $(, $($more:tt)*)?) => {
        (stringify!($value), $value, $crate::to_json::members!($($($more)*)?))
    };
}

pub(crate) use members;
pub(crate) use object;

impl ToJson for u8 {
    ghost json = { number_of };

    fn write_json(&self, text: &mut JsonText) {
        u64::from(*self).write_json(text);
    }
}

impl ToJson for u16 {
    ghost json = { number_of };

    fn write_json(&self, text: &mut JsonText) {
        u64::from(*self).write_json(text);
    }
}

impl ToJson for u32 {
    ghost json = { number_of };

    fn write_json(&self, text: &mut JsonText) {
        u64::from(*self).write_json(text);
    }
}

impl ToJson for u64 {
    ghost json = { number_of };

    fn write_json(&self, text: &mut JsonText) {
        text.refused |= text.writer.u64(*self).is_err();
    }
}

impl ToJson for usize {
    ghost json = { number_of };

    fn write_json(&self, text: &mut JsonText) {
        (*self as u64).write_json(text);
    }
}

impl ToJson for bool {
    ghost json = { boolean };

    fn write_json(&self, text: &mut JsonText) {
        text.token(Token::Bool(*self));
    }
}

impl<'a> ToJson for &'a str {
    ghost json = { λ s. string s.now };

    fn write_json(&self, text: &mut JsonText) {
        text.token(Token::String(*self));
    }
}

/// Bytes, in hexadecimal digits.
impl<'a> ToJson for &'a [u8] {
    ghost json = { λ bytes. hex_of bytes.now };

    fn write_json(&self, text: &mut JsonText) {
        match hex::encode(text.alloc, *self) {
            Ok(digits) => text.token(Token::String(digits.as_str())),
            Err(_) => text.refused = true,
        }
    }
}

impl ToJson for Addr6 {
    ghost json = { address_of };

    fn write_json(&self, text: &mut JsonText) {
        text.printed(self);
    }
}

impl ToJson for Prefix {
    ghost json = { prefix_of };

    fn write_json(&self, text: &mut JsonText) {
        text.printed(self);
    }
}

/// What is not there is `null`.
impl<T: ToJson> ToJson for Option<T> {
    ghost json = { option_of T.json };

    fn write_json(&self, text: &mut JsonText) {
        match self {
            Some(value) => value.write_json(text),
            None => text.token(Token::Null),
        }
    }
}

/// Writes a list, in order.
fn write_list<T: ToJson>(values: &[T], text: &mut JsonText)
    ensures { Grows text.old text.new (json_tokens (list_of T.json values.now)) }
{
    text.token(Token::BeginArray);
    for value in values {
        value.write_json(text);
    }
    text.token(Token::EndArray);
}

impl<T: ToJson> ToJson for Vec<T> {
    ghost json = { λ values. list_of T.json values.items };

    fn write_json(&self, text: &mut JsonText) {
        write_list(self.as_slice(), text);
    }
}

impl<T: ToJson> ToJson for Listed<T> {
    ghost json = { list_of T.json };

    fn write_json(&self, text: &mut JsonText) {
        write_list(self.as_slice(), text);
    }
}

/// The form of records.
#[derive(Clone, Copy)]
pub enum Form {
    /// A record is a line of JSON.
    Json,
    /// A record is what it prints, in English.
    English,
}

/// Writes a record.
///
/// # Errors
/// Out of memory, before anything is written; else the error of `out`, after a beginning of the record.
pub fn write_record<T: ToJson + Display, W: Write>(
    alloc: Global,
    form: Form,
    value: &T,
    out: &mut W,
) -> io::Result<()>
    ensures whole { OnOk result (WritesRecord (T.json value.now) (written_as form (W.contents out.old)) (written_as form (W.contents out.new))) }
    ensures broken { OnErr result (WritesLess (written_as form (W.contents out.old)) (written_as form (W.contents out.new))) }
{
    match form {
        Form::Json => {
            let writer = Writer::new(Vec::new(alloc));
            let mut text = JsonText {
                alloc,
                writer,
                refused: false,
            };
            value.write_json(&mut text);
            if text.refused {
                return Err(io::Error::from(AllocError));
            }
            let mut line = text.writer.into_inner();
            line.push(b'\n')?;
            write_bytes(&line, out)
        }
        Form::English => write!(out, "{value}"),
    }
}

/// Writes bytes, as `write_all` does; but where that fails, it is known what was written.
fn write_bytes<W: Write>(bytes: &[u8], out: &mut W) -> io::Result<()>
    requires { 0 < length bytes.now }
    ensures whole { OnOk result (Appends (W.contents out.old) (W.contents out.new) bytes.now) }
    ensures broken { OnErr result ((count : ℕ) × count < length bytes.now × Appends (W.contents out.old) (W.contents out.new) (take count bytes.now)) }
{
    let mut written = 0;
    for _ in 0..u64::MAX {
        match out.write(&bytes[written..]) {
            Ok(0) => return Err(io::Error::from(ErrorKind::WriteZero)),
            Ok(count) => written += count,
            Err(error) if error.kind() == ErrorKind::Interrupted => {}
            Err(error) => return Err(error),
        }
        if written == bytes.len() {
            return Ok(());
        }
    }
    Err(io::Error::from(ErrorKind::WriteZero))
}
