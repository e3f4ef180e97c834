//! Groups in brackets.
ghost use Rattle.ir_grammar.specs.Groups as spec;
ghost use Rattle.ir_reader_tokens.specs.Reads.{Reads};
ghost use Rattle.std.specs.Prelude.{◌≡◌, [], ◌∷◌};

use ir_grammar::Bracket;
use ir_reader_tokens::{Cursor, PartError};
use ir_tokens::TokenKind;
use std::alloc::Global;

fn sign_bracket(sign: u8) -> Bracket
    ensures { result ≡ spec.sign_bracket sign }
{
    match sign {
        b'(' => Bracket::Opens(b')'),
        b'[' => Bracket::Opens(b']'),
        b'{' => Bracket::Opens(b'}'),
        b')' | b']' | b'}' => Bracket::Closes(sign),
        _ => Bracket::Other,
    }
}

fn kind_bracket(kind: TokenKind) -> Bracket
    ensures { result ≡ spec.kind_bracket kind }
{
    match kind {
        TokenKind::Sign(sign) => sign_bracket(sign),
        TokenKind::Local => Bracket::Other,
        TokenKind::Global => Bracket::Other,
        TokenKind::Label => Bracket::Other,
        TokenKind::CString => Bracket::Other,
        TokenKind::Quoted => Bracket::Other,
        TokenKind::Number => Bracket::Other,
        TokenKind::Word => Bracket::Other,
        TokenKind::Hash => Bracket::Other,
        TokenKind::Meta => Bracket::Other,
    }
}

/// The rest of a group, past its first bracket, up to the one that closes it. It takes a byte of
/// memory for each open bracket.
#[tactic(auto, unfolding(ir_grammar::specs::Groups::scan))]
fn close(alloc: Global, cursor: &mut Cursor<'_>, closer: u8) -> Result<(), PartError>
    ensures { Reads (spec.with_unit (spec.scan (closer ∷ []) cursor.old)) result cursor.new }
{
    let mut stack = Vec::new(alloc);
    stack.push(closer)?;
    'turns: while let Some(next) = stack.pop() {
        let Some(kind) = cursor.peek() else {
            return Err(PartError::NotHere);
        };
        match kind_bracket(kind) {
            Bracket::Opens(inner) => {
                stack.push(next)?;
                stack.push(inner)?;
            }
            Bracket::Closes(sign) => {
                if sign != next {
                    return Err(PartError::NotHere);
                }
            }
            Bracket::Other => stack.push(next)?,
        }
        cursor.skip();
    }
    Ok(())
}

/// `( .. )`, with the brackets in it matched.
pub fn round(alloc: Global, cursor: &mut Cursor<'_>) -> Result<(), PartError>
    ensures { Reads (spec.round.parse cursor.old) result cursor.new }
{
    let Some(kind) = cursor.peek() else {
        return Err(PartError::NotHere);
    };
    match kind_bracket(kind) {
        Bracket::Opens(closer) => {
            if closer != b')' {
                return Err(PartError::NotHere);
            }
            cursor.skip();
            close(alloc, cursor, closer)
        }
        _ => Err(PartError::NotHere),
    }
}

/// `{ .. }`, with the brackets in it matched.
pub fn curly(alloc: Global, cursor: &mut Cursor<'_>) -> Result<(), PartError>
    ensures { Reads (spec.curly.parse cursor.old) result cursor.new }
{
    let Some(kind) = cursor.peek() else {
        return Err(PartError::NotHere);
    };
    match kind_bracket(kind) {
        Bracket::Opens(closer) => {
            if closer != b'}' {
                return Err(PartError::NotHere);
            }
            cursor.skip();
            close(alloc, cursor, closer)
        }
        _ => Err(PartError::NotHere),
    }
}

/// `( .. )` or `{ .. }`, with the brackets in it matched.
pub fn group(alloc: Global, cursor: &mut Cursor<'_>) -> Result<(), PartError>
    ensures { Reads (spec.group.parse cursor.old) result cursor.new }
{
    let Some(kind) = cursor.peek() else {
        return Err(PartError::NotHere);
    };
    match kind_bracket(kind) {
        Bracket::Opens(closer) => {
            if closer != b')' && closer != b'}' {
                return Err(PartError::NotHere);
            }
            cursor.skip();
            close(alloc, cursor, closer)
        }
        _ => Err(PartError::NotHere),
    }
}
