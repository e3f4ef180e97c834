//! A text that grows by tokens, with the blanks between them.
ghost use Rattle.ir_text.specs.Lines as spec;
ghost use Rattle.ir_text.specs.Printing.{gap_after, with_token};
ghost use Rattle.ir_text.specs.Spelling as canon;
ghost use Rattle.std.specs.Prelude.{◌≡◌, ◌++◌, ◌∷◌, [], OnOk, Some, None};

use crate::spelling::{put_decimal, put_label_name, put_name, put_quoted, put_signed};
use crate::words::{binary_word, cast_word, predicate_word, width_word};
use am_base::{BinOp, Cast, OutOfMemory, Pred, Width};
use am_lists::Bytes;
use ir_tokens::TokenKind;
use ir_tree::Name;
use std::alloc::Global;

/// The text written so far, and the kind of the last token on its last line.
#[derive(Drop)]
pub struct Sheet {
    pub text: Bytes,
    pub last: Option<TokenKind>,
}

fn is_open(kind: TokenKind) -> bool
    ensures { result ≡ spec.is_open kind }
{
    match kind {
        TokenKind::Sign(sign) => sign == b'(',
        TokenKind::Local
        | TokenKind::Global
        | TokenKind::Label
        | TokenKind::CString
        | TokenKind::Quoted
        | TokenKind::Number
        | TokenKind::Word
        | TokenKind::Hash
        | TokenKind::Meta => false,
    }
}

fn is_closing(kind: TokenKind) -> bool
    ensures { result ≡ spec.is_closing kind }
{
    match kind {
        TokenKind::Sign(sign) => sign == b',' || sign == b')',
        TokenKind::Local
        | TokenKind::Global
        | TokenKind::Label
        | TokenKind::CString
        | TokenKind::Quoted
        | TokenKind::Number
        | TokenKind::Word
        | TokenKind::Hash
        | TokenKind::Meta => false,
    }
}

fn is_global(kind: TokenKind) -> bool
    ensures { result ≡ spec.is_global kind }
{
    match kind {
        TokenKind::Global => true,
        TokenKind::Sign(_)
        | TokenKind::Local
        | TokenKind::Label
        | TokenKind::CString
        | TokenKind::Quoted
        | TokenKind::Number
        | TokenKind::Word
        | TokenKind::Hash
        | TokenKind::Meta => false,
    }
}

fn is_tight(before: TokenKind, next: TokenKind) -> bool
    ensures { result ≡ spec.is_tight before next }
{
    is_open(before) || is_closing(next) || (is_global(before) && is_open(next))
}

/// The blank before a token of the kind, or nothing.
fn gap(last: Option<TokenKind>, next: TokenKind) -> &'static [u8]
    ensures { result.now ≡ gap_after last next }
{
    match last {
        None => b"",
        Some(before) => { if is_tight(before, next) { b"" } else { b" " } }
    }
}

impl Sheet {
    /// An empty sheet.
    pub fn new(alloc: Global) -> Sheet
        ensures { (result.text ≡ []) × (result.last ≡ None) }
    {
        Sheet {
            text: Bytes::new(alloc),
            last: None,
        }
    }

    /// Begins a token of the kind: writes the blank before it, if any.
    pub fn begin(&mut self, kind: TokenKind) -> Result<(), OutOfMemory>
        ensures text { OnOk result (self.new.text ≡ self.old.text ++ gap_after self.old.last kind) }
        ensures last { OnOk result (self.new.last ≡ Some kind) }
    {
        self.text.extend(gap(self.last, kind))?;
        self.last = Some(kind);
        Ok(())
    }

    /// Ends the line.
    pub fn end_line(&mut self) -> Result<(), OutOfMemory>
        ensures text { OnOk result (self.new.text ≡ self.old.text ++ 10 ∷ []) }
        ensures last { OnOk result (self.new.last ≡ None) }
    {
        self.text.push(b'\n')?;
        self.last = None;
        Ok(())
    }

    /// Writes a word.
    pub fn word(&mut self, word: &[u8]) -> Result<(), OutOfMemory>
        ensures { OnOk result (self.new ≡ with_token self.old (canon.word word.now)) }
    {
        self.begin(TokenKind::Word)?;
        self.text.extend(word)?;
        Ok(())
    }

    /// Writes the word of a width.
    pub fn width(&mut self, width: Width) -> Result<(), OutOfMemory>
        ensures { OnOk result
            (self.new ≡ with_token self.old (canon.word (canon.width_word width))) }
    {
        self.word(width_word(width))?;
        Ok(())
    }

    /// Writes the word of an operation.
    pub fn binary(&mut self, op: BinOp) -> Result<(), OutOfMemory>
        ensures { OnOk result (self.new ≡ with_token self.old (canon.word (canon.binary_word op))) }
    {
        self.word(binary_word(op))?;
        Ok(())
    }

    /// Writes the word of a conversion.
    pub fn cast(&mut self, cast: Cast) -> Result<(), OutOfMemory>
        ensures { OnOk result (self.new ≡ with_token self.old (canon.word (canon.cast_word cast))) }
    {
        self.word(cast_word(cast))?;
        Ok(())
    }

    /// Writes the word of a predicate.
    pub fn predicate(&mut self, pred: Pred) -> Result<(), OutOfMemory>
        ensures { OnOk result
            (self.new ≡ with_token self.old (canon.word (canon.predicate_word pred))) }
    {
        self.word(predicate_word(pred))?;
        Ok(())
    }

    /// Writes a sign.
    pub fn sign(&mut self, sign: u8) -> Result<(), OutOfMemory>
        ensures { OnOk result (self.new ≡ with_token self.old (canon.sign sign)) }
    {
        self.begin(TokenKind::Sign(sign))?;
        self.text.push(sign)?;
        Ok(())
    }

    /// Writes a local: `%` and its name.
    pub fn local(&mut self, name: &Name) -> Result<(), OutOfMemory>
        ensures { OnOk result (self.new ≡ with_token self.old (canon.local name.now)) }
    {
        self.begin(TokenKind::Local)?;
        self.text.push(b'%')?;
        put_name(&mut self.text, name)
    }

    /// Writes a global: `@` and its name.
    pub fn global(&mut self, name: &Name) -> Result<(), OutOfMemory>
        ensures { OnOk result (self.new ≡ with_token self.old (canon.global name.now)) }
    {
        self.begin(TokenKind::Global)?;
        self.text.push(b'@')?;
        put_name(&mut self.text, name)
    }

    /// Writes a label: its name and `:`.
    pub fn label(&mut self, name: &Name) -> Result<(), OutOfMemory>
        ensures { OnOk result (self.new ≡ with_token self.old (canon.label name.now)) }
    {
        self.begin(TokenKind::Label)?;
        put_label_name(&mut self.text, name)?;
        self.text.push(b':')?;
        Ok(())
    }

    /// Writes a number.
    pub fn number(&mut self, n: i128) -> Result<(), OutOfMemory>
        ensures { OnOk result (self.new ≡ with_token self.old (canon.number n)) }
    {
        self.begin(TokenKind::Number)?;
        put_signed(&mut self.text, n)
    }

    /// Writes the length of an array.
    pub fn array_length(&mut self, n: u64) -> Result<(), OutOfMemory>
        ensures { OnOk result (self.new ≡ with_token self.old (canon.array_length n)) }
    {
        self.begin(TokenKind::Number)?;
        put_decimal(&mut self.text, n)
    }

    /// Writes a text: `c` and the text in quotes.
    pub fn cstring(&mut self, text: &[u8]) -> Result<(), OutOfMemory>
        ensures { OnOk result (self.new ≡ with_token self.old (canon.cstring text.now)) }
    {
        self.begin(TokenKind::CString)?;
        self.text.push(b'c')?;
        put_quoted(&mut self.text, text)
    }
}
