//! Parts that are read and leave no trace in the tree.
ghost use Rattle.ir_reader_tokens.specs.Reads.{Reads, Takes};
ghost use Rattle.ir_grammar.specs.declared.starts.SkipStart.TheVariants as skips;
ghost use Rattle.ir_grammar.specs.Skips as spec;
ghost use Rattle.ir_reader_parts.specs.Ignored as repeats;
ghost use Rattle.std.specs.Prelude.{◌≡◌};

use crate::groups::round;
use ir_grammar::{FlagStart, SkipStart, TailStart};
use ir_reader_tokens::{Cursor, PartError};
use std::alloc::Global;

/// A part that is repeated while one comes next, and leaves no trace.
#[derive(Clone, Copy)]
pub enum Ignored {
    /// Flags of `getelementptr`.
    Flags,
    /// Flags of a binary operation.
    ArithmeticFlags,
    /// Flags of a conversion.
    CastFlags,
    /// Words and groups that are skipped.
    Skips,
    /// Those that are skipped in the head of a function.
    HeadSkips,
    /// The parts after an instruction.
    Tails,
    /// The parts after a global.
    GlobalTails,
}

/// The word, or nothing.
pub fn optional(cursor: &mut Cursor<'_>, word: &[u8]) -> Result<(), PartError>
    ensures { Takes ((spec.optional word.now).parse cursor.old) result cursor.new }
{
    if cursor.sees_word(word) {
        return cursor.next();
    }
    Ok(())
}

// Flags of `getelementptr`.

#[tactic(auto, using(ir_reader_tokens::proofs::Taken::taken_read))]
fn flag(alloc: Global, cursor: &mut Cursor<'_>) -> Result<(), PartError>
    ensures { Reads (spec.flag.parse cursor.old) result cursor.new }
{
    match cursor.flag_start() {
        FlagStart::Plain => cursor.next(),
        FlagStart::InRange => {
            cursor.next()?;
            round(alloc, cursor)
        }
        FlagStart::Nothing => Err(PartError::NotHere),
    }
}

// Skipped parts.

fn some_integer(cursor: &mut Cursor<'_>) -> Result<(), PartError>
    ensures { Takes (spec.some_integer.parse cursor.old) result cursor.new }
{
    cursor.integer()?;
    Ok(())
}

/// An attribute word, and the group after it if one comes next.
fn attribute(alloc: Global, cursor: &mut Cursor<'_>) -> Result<(), PartError>
    ensures { Reads ((spec.skip_by skips.Attribute).parse cursor.old) result cursor.new }
{
    cursor.next()?;
    if cursor.sees_sign(b'(') {
        return round(alloc, cursor);
    }
    Ok(())
}

/// `align` with a number or a group.
#[tactic(auto, using(ir_reader_tokens::proofs::Taken::taken_read))]
fn align(alloc: Global, cursor: &mut Cursor<'_>) -> Result<(), PartError>
    ensures { Reads ((spec.skip_by skips.Align).parse cursor.old) result cursor.new }
{
    cursor.next()?;
    if cursor.sees_sign(b'(') {
        return round(alloc, cursor);
    }
    some_integer(cursor)
}

/// A quoted text, and `=` and a second one if a `=` comes next.
fn attribute_text(cursor: &mut Cursor<'_>) -> Result<(), PartError>
    ensures { Takes ((spec.skip_by skips.Quoted).parse cursor.old) result cursor.new }
{
    cursor.next()?;
    if cursor.sees_sign(b'=') {
        cursor.next()?;
        return cursor.quoted();
    }
    Ok(())
}

/// A skipped part.
#[tactic(auto, using(ir_reader_tokens::proofs::Taken::taken_read))]
fn skip(alloc: Global, cursor: &mut Cursor<'_>) -> Result<(), PartError>
    ensures { Reads (spec.skip.parse cursor.old) result cursor.new }
{
    match cursor.skip_start() {
        SkipStart::Attribute => attribute(alloc, cursor),
        SkipStart::Align => align(alloc, cursor),
        SkipStart::Quoted => attribute_text(cursor),
        SkipStart::Hash => cursor.next(),
        SkipStart::Meta => {
            cursor.next()?;
            cursor.meta()
        }
        SkipStart::Nothing => Err(PartError::NotHere),
    }
}

/// A part after an instruction or a global.
fn tail(cursor: &mut Cursor<'_>) -> Result<(), PartError>
    ensures { Takes (spec.tail.parse cursor.old) result cursor.new }
{
    match cursor.tail_start() {
        TailStart::Align => {
            cursor.next()?;
            cursor.next()?;
            some_integer(cursor)
        }
        TailStart::Section => {
            cursor.next()?;
            cursor.next()?;
            cursor.quoted()
        }
        TailStart::Meta => {
            cursor.next()?;
            cursor.next()?;
            cursor.meta()
        }
        TailStart::Hash => cursor.next(),
        TailStart::Nothing => Err(PartError::NotHere),
    }
}

// Repeated parts.

fn begins(cursor: &Cursor<'_>, part: Ignored) -> bool
    ensures { result ≡ repeats.begins part cursor.now }
{
    match part {
        Ignored::Flags => cursor.sees_flag(),
        Ignored::ArithmeticFlags => cursor.sees_arithmetic_flag(),
        Ignored::CastFlags => cursor.sees_cast_flag(),
        Ignored::Skips => cursor.sees_skip(),
        Ignored::HeadSkips => cursor.sees_head_skip(),
        Ignored::Tails => cursor.sees_tail(),
        Ignored::GlobalTails => cursor.sees_global_tail(),
    }
}

#[tactic(auto, using(ir_reader_tokens::proofs::Taken::taken_read))]
fn once(alloc: Global, cursor: &mut Cursor<'_>, part: Ignored) -> Result<(), PartError>
    ensures { Reads ((repeats.once part).parse cursor.old) result cursor.new }
{
    match part {
        Ignored::Flags => flag(alloc, cursor),
        Ignored::ArithmeticFlags | Ignored::CastFlags => cursor.next(),
        Ignored::Skips | Ignored::HeadSkips => skip(alloc, cursor),
        Ignored::Tails | Ignored::GlobalTails => tail(cursor),
    }
}

/// The part, repeated while one comes next; maybe none.
pub fn repeated(alloc: Global, cursor: &mut Cursor<'_>, part: Ignored) -> Result<(), PartError>
    ensures { Reads ((repeats.repeated part).parse cursor.old) result cursor.new }
{
    'turns: while begins(cursor, part) {
        once(alloc, cursor, part)?;
    }
    Ok(())
}
