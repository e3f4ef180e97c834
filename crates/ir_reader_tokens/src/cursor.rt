//! A cursor over the tokens of a text, and the values of single tokens.
ghost use Rattle.ir_grammar.specs.Items as items;
ghost use Rattle.ir_grammar.specs.Lexeme as lexeme;
ghost use Rattle.ir_grammar.specs.Ops as ops;
ghost use Rattle.ir_grammar.specs.Rule as rule;
ghost use Rattle.ir_grammar.specs.Skips as skips;
ghost use Rattle.ir_grammar.specs.Starts as start;
ghost use Rattle.ir_grammar.specs.Words as spec;
ghost use Rattle.ir_reader_tokens.specs.Cursor.{LieIn};
ghost use Rattle.ir_reader_tokens.specs.Reads.{Reads, Takes};
ghost use Rattle.std.specs.Prelude.{◌≡◌, length};

use crate::error::PartError;
use crate::skipped_words::{behind_comma, is_global_tail, is_head_skip, is_skip, is_tail, skip_at};
use crate::starts::{flag_at, is_flag, is_type, item_at, op_at, operand_at, type_at};
use crate::texts::{before_last, behind_first, integer_of, length_of, name_of, quoted_value};
use crate::words::{global_kind, is_arithmetic_flag, is_cast_flag, predicate_word};
use am_base::Pred;
use am_lists::Bytes;
use ir_grammar::{FlagStart, ItemStart, OpStart, OperandStart, SkipStart, TailStart, TypeStart};
use ir_tokens::{Token, TokenKind};
use ir_tree::Name;
use std::alloc::Global;
use std::marker::Model;

/// The tokens of a text that are left to read. Contracts see them with their spellings.
#[derive(Drop)]
pub struct Cursor<'a> {
    text: &'a [u8],
    tokens: &'a [Token],
}

impl<'a> Model for Cursor<'a> {
    ghost use Rattle.ir_grammar.specs.Lexeme.{Lexemes};
    ghost use Rattle.ir_reader_tokens.specs.Cursor.{IsReady, shown};

    ghost Value = { Lexemes };

    ghost view = { shown };

    ghost invariant = { IsReady };
}

impl<'a> Cursor<'a> {
    /// All tokens of a text.
    pub fn new(text: &'a [u8], tokens: &'a [Token]) -> Cursor<'a>
        requires { LieIn text.now tokens.now }
        ensures { result ≡ lexeme.lexemes text.now tokens.now }
    {
        Cursor { text, tokens }
    }

    /// How many tokens are left.
    pub fn left(&self) -> usize
        ensures { result ≡ length self.now }
    {
        self.tokens.len()
    }

    /// The kind of the next token.
    pub fn peek(&self) -> Option<TokenKind>
        ensures { result ≡ lexeme.first_kind self.now }
    {
        match self.tokens {
            [] => None,
            [t, ..] => Some(t.kind),
        }
    }

    /// The bytes of the next token.
    pub fn spelling(&self) -> &'a [u8]
        ensures { result.now ≡ lexeme.first_text self.now }
    {
        match self.tokens {
            [] => &[],
            [t, ..] => &self.text[t.from as usize..t.to as usize],
        }
    }

    /// Moves past the next token, if there is one.
    pub fn skip(&mut self)
        ensures { self.new ≡ lexeme.behind self.old }
    {
        if let [_, rest @ ..] = self.tokens {
            self.tokens = rest;
        }
    }

    /// A cursor past the next token.
    pub fn after(&self) -> Cursor<'a>
        ensures { result ≡ lexeme.behind self.now }
    {
        match self.tokens {
            [] => Cursor {
                text: self.text,
                tokens: &[],
            },
            [_, tokens @ ..] => Cursor {
                text: self.text,
                tokens,
            },
        }
    }

    /// Whether the next token is this sign.
    pub fn sees_sign(&self, sign: u8) -> bool
        ensures { result ≡ lexeme.sees_sign sign self.now }
    {
        match self.peek() {
            Some(TokenKind::Sign(found)) => found == sign,
            _ => false,
        }
    }

    /// Whether the next token is this word.
    pub fn sees_word(&self, word: &[u8]) -> bool
        ensures { result ≡ lexeme.sees_word word.now self.now }
    {
        match self.peek() {
            Some(TokenKind::Word) => self.spelling() == word,
            _ => false,
        }
    }

    /// Any token.
    pub fn next(&mut self) -> Result<(), PartError>
        ensures { Takes (rule.next.parse self.old) result self.new }
    {
        if self.tokens.is_empty() {
            return Err(PartError::NotHere);
        }
        self.skip();
        Ok(())
    }

    /// This sign.
    pub fn sign(&mut self, sign: u8) -> Result<(), PartError>
        ensures { Takes ((rule.sign sign).parse self.old) result self.new }
    {
        if self.sees_sign(sign) {
            self.skip();
            Ok(())
        } else {
            Err(PartError::NotHere)
        }
    }

    /// This word.
    pub fn word(&mut self, word: &[u8]) -> Result<(), PartError>
        ensures { Takes ((spec.word word.now).parse self.old) result self.new }
    {
        match self.peek() {
            Some(TokenKind::Word) if self.spelling() == word => {
                self.skip();
                Ok(())
            }
            _ => Err(PartError::NotHere),
        }
    }

    /// A quoted text.
    pub fn quoted(&mut self) -> Result<(), PartError>
        ensures { Takes (spec.quoted.parse self.old) result self.new }
    {
        match self.peek() {
            Some(TokenKind::Quoted) => {
                self.skip();
                Ok(())
            }
            _ => Err(PartError::NotHere),
        }
    }

    /// `#` and digits.
    pub fn hash(&mut self) -> Result<(), PartError>
        ensures { Takes (spec.hash.parse self.old) result self.new }
    {
        match self.peek() {
            Some(TokenKind::Hash) => {
                self.skip();
                Ok(())
            }
            _ => Err(PartError::NotHere),
        }
    }

    /// `!` and a run.
    pub fn meta(&mut self) -> Result<(), PartError>
        ensures { Takes (spec.meta.parse self.old) result self.new }
    {
        match self.peek() {
            Some(TokenKind::Meta) => {
                self.skip();
                Ok(())
            }
            _ => Err(PartError::NotHere),
        }
    }

    /// Which form of type the next token starts.
    #[tactic(auto, unfolding(ir_grammar::specs::Starts::type_start))]
    pub fn type_start(&self) -> TypeStart
        ensures { result ≡ start.type_start self.now }
    {
        type_at(self.peek(), self.spelling())
    }

    /// Whether a type comes next.
    #[tactic(auto, unfolding(ir_grammar::specs::Starts::sees_type))]
    pub fn sees_type(&self) -> bool
        ensures { result ≡ start.sees_type self.now }
    {
        is_type(self.type_start())
    }

    /// Whether a comma comes next, and a type behind it.
    pub fn sees_more_types(&self) -> bool
        ensures { result ≡ rule.comma_then start.sees_type self.now }
    {
        self.sees_sign(b',') && self.after().sees_type()
    }

    /// The name of a local.
    pub fn local(&mut self, alloc: Global) -> Result<Name, PartError>
        ensures { Reads (spec.local.parse self.old) result self.new }
    {
        match self.peek() {
            Some(TokenKind::Local) => {
                let name = name_of(alloc, behind_first(self.spelling()))?;
                self.skip();
                Ok(name)
            }
            _ => Err(PartError::NotHere),
        }
    }

    /// The name of a global.
    pub fn global_name(&mut self, alloc: Global) -> Result<Name, PartError>
        ensures { Reads (spec.global_name.parse self.old) result self.new }
    {
        match self.peek() {
            Some(TokenKind::Global) => {
                let name = name_of(alloc, behind_first(self.spelling()))?;
                self.skip();
                Ok(name)
            }
            _ => Err(PartError::NotHere),
        }
    }

    /// The name of a label.
    pub fn label_name(&mut self, alloc: Global) -> Result<Name, PartError>
        ensures { Reads (spec.label_name.parse self.old) result self.new }
    {
        match self.peek() {
            Some(TokenKind::Label) => {
                let name = name_of(alloc, before_last(self.spelling()))?;
                self.skip();
                Ok(name)
            }
            _ => Err(PartError::NotHere),
        }
    }

    /// A number within 128 signed bits.
    pub fn integer(&mut self) -> Result<i128, PartError>
        ensures { Takes (spec.integer.parse self.old) result self.new }
    {
        match self.peek() {
            Some(TokenKind::Number) => {
                let value = integer_of(self.spelling());
                match value {
                    None => Err(PartError::NotHere),
                    Some(n) => {
                        self.skip();
                        Ok(n)
                    }
                }
            }
            _ => Err(PartError::NotHere),
        }
    }

    /// A number from 0 to 2^32.
    pub fn array_length(&mut self) -> Result<u64, PartError>
        ensures { Takes (spec.array_length.parse self.old) result self.new }
    {
        match self.peek() {
            Some(TokenKind::Number) => {
                let value = length_of(self.spelling());
                match value {
                    None => Err(PartError::NotHere),
                    Some(n) => {
                        self.skip();
                        Ok(n)
                    }
                }
            }
            _ => Err(PartError::NotHere),
        }
    }

    /// Which flag of `getelementptr` the next token starts.
    #[tactic(auto, unfolding(ir_grammar::specs::Starts::flag_start))]
    pub fn flag_start(&self) -> FlagStart
        ensures { result ≡ start.flag_start self.now }
    {
        flag_at(self.peek(), self.spelling())
    }

    /// Whether a flag of `getelementptr` comes next.
    #[tactic(auto, unfolding(ir_grammar::specs::Starts::sees_flag))]
    pub fn sees_flag(&self) -> bool
        ensures { result ≡ start.sees_flag self.now }
    {
        is_flag(self.flag_start())
    }

    /// Which form of operand the next token starts.
    #[tactic(auto, unfolding(ir_grammar::specs::Starts::operand_start))]
    pub fn operand_start(&self) -> OperandStart
        ensures { result ≡ start.operand_start self.now }
    {
        operand_at(self.peek(), self.spelling())
    }

    /// Which instruction the next token starts.
    #[tactic(auto, unfolding(ir_grammar::specs::Starts::op_start))]
    pub fn op_start(&self) -> OpStart
        ensures { result ≡ start.op_start self.now }
    {
        op_at(self.peek(), self.spelling())
    }

    /// Which item the next token starts.
    #[tactic(auto, unfolding(ir_grammar::specs::Starts::item_start))]
    pub fn item_start(&self) -> ItemStart
        ensures { result ≡ start.item_start self.now }
    {
        item_at(self.peek(), self.spelling())
    }

    /// Which skipped part the next token starts.
    #[tactic(auto, unfolding(ir_grammar::specs::Starts::skip_start))]
    pub fn skip_start(&self) -> SkipStart
        ensures { result ≡ start.skip_start self.now }
    {
        skip_at(self.peek(), self.spelling())
    }

    /// Whether the next token starts a skipped part.
    #[tactic(auto, unfolding(ir_grammar::specs::Starts::sees_skip))]
    pub fn sees_skip(&self) -> bool
        ensures { result ≡ start.sees_skip self.now }
    {
        is_skip(self.skip_start())
    }

    /// Whether the next token starts a part that is skipped in the head of a function.
    #[tactic(auto, unfolding(ir_grammar::specs::Starts::sees_head_skip))]
    pub fn sees_head_skip(&self) -> bool
        ensures { result ≡ start.sees_head_skip self.now }
    {
        is_head_skip(self.skip_start())
    }

    /// Which part after an instruction or a global the next two tokens start.
    #[tactic(auto, unfolding(ir_grammar::specs::Starts::tail_start))]
    pub fn tail_start(&self) -> TailStart
        ensures { result ≡ start.tail_start self.now }
    {
        match self.peek() {
            Some(TokenKind::Hash) => TailStart::Hash,
            Some(TokenKind::Sign(b',')) => {
                let more = self.after();
                behind_comma(more.peek(), more.spelling())
            }
            _ => TailStart::Nothing,
        }
    }

    /// Whether the next two tokens start a part that may follow an instruction.
    #[tactic(auto, unfolding(ir_grammar::specs::Starts::sees_tail))]
    pub fn sees_tail(&self) -> bool
        ensures { result ≡ start.sees_tail self.now }
    {
        is_tail(self.tail_start())
    }

    /// Whether the next two tokens start a part that may follow a global.
    #[tactic(auto, unfolding(ir_grammar::specs::Starts::sees_global_tail))]
    pub fn sees_global_tail(&self) -> bool
        ensures { result ≡ start.sees_global_tail self.now }
    {
        is_global_tail(self.tail_start())
    }

    /// Whether a local comes next.
    pub fn sees_local(&self) -> bool
        ensures { result ≡ lexeme.sees_local self.now }
    {
        matches!(self.peek(), Some(TokenKind::Local))
    }

    /// Whether a `c` and a quoted text come next.
    pub fn sees_cstring(&self) -> bool
        ensures { result ≡ lexeme.sees_cstring self.now }
    {
        matches!(self.peek(), Some(TokenKind::CString))
    }

    /// Whether a flag of a binary operation comes next.
    pub fn sees_arithmetic_flag(&self) -> bool
        ensures { result ≡ skips.sees_one_of ops.arithmetic_flags self.now }
    {
        match self.peek() {
            Some(TokenKind::Word) => is_arithmetic_flag(self.spelling()),
            _ => false,
        }
    }

    /// Whether a flag of a conversion comes next.
    pub fn sees_cast_flag(&self) -> bool
        ensures { result ≡ skips.sees_one_of ops.cast_flags self.now }
    {
        match self.peek() {
            Some(TokenKind::Word) => is_cast_flag(self.spelling()),
            _ => false,
        }
    }

    /// The value of a `c` and a quoted text, in bytes.
    pub fn cstring(&mut self, alloc: Global) -> Result<Bytes, PartError>
        ensures { Reads (spec.cstring.parse self.old) result self.new }
    {
        match self.peek() {
            Some(TokenKind::CString) => {
                let value = quoted_value(alloc, behind_first(self.spelling()))?;
                self.skip();
                Ok(value)
            }
            _ => Err(PartError::NotHere),
        }
    }

    /// A predicate of `icmp`.
    pub fn predicate(&mut self) -> Result<Pred, PartError>
        ensures { Takes (ops.predicate.parse self.old) result self.new }
    {
        match self.peek() {
            Some(TokenKind::Word) => {
                let value = predicate_word(self.spelling());
                match value {
                    None => Err(PartError::NotHere),
                    Some(pred) => {
                        self.skip();
                        Ok(pred)
                    }
                }
            }
            _ => Err(PartError::NotHere),
        }
    }

    /// `global` or `constant`: whether it is constant.
    pub fn global_kind(&mut self) -> Result<bool, PartError>
        ensures { Takes (items.global_kind.parse self.old) result self.new }
    {
        match self.peek() {
            Some(TokenKind::Word) => {
                let value = global_kind(self.spelling());
                match value {
                    None => Err(PartError::NotHere),
                    Some(constant) => {
                        self.skip();
                        Ok(constant)
                    }
                }
            }
            _ => Err(PartError::NotHere),
        }
    }
}
