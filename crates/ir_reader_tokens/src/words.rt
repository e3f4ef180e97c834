//! The words of predicates, of kinds of globals, and of flags.
ghost use Rattle.ir_grammar.specs.Items as items;
ghost use Rattle.ir_grammar.specs.Ops as ops;
ghost use Rattle.ir_grammar.specs.Words as words;
ghost use Rattle.std.specs.Prelude.{◌≡◌, None};

use am_base::Pred;

/// The predicate of `icmp` that a word denotes.
#[tactic(auto, unfolding(ir_grammar::specs::Ops::predicate_word))]
pub fn predicate_word(word: &[u8]) -> Option<Pred>
    ensures { result ≡ ops.predicate_word word.now }
{
    if word == b"eq".as_slice() {
        Some(Pred::Eq)
    } else if word == b"ne".as_slice() {
        Some(Pred::Ne)
    } else if word == b"ugt".as_slice() {
        Some(Pred::Ugt)
    } else if word == b"uge".as_slice() {
        Some(Pred::Uge)
    } else if word == b"ult".as_slice() {
        Some(Pred::Ult)
    } else if word == b"ule".as_slice() {
        Some(Pred::Ule)
    } else if word == b"sgt".as_slice() {
        Some(Pred::Sgt)
    } else if word == b"sge".as_slice() {
        Some(Pred::Sge)
    } else if word == b"slt".as_slice() {
        Some(Pred::Slt)
    } else if word == b"sle".as_slice() {
        Some(Pred::Sle)
    } else {
        None
    }
}

/// Whether the word is `constant`; `None` iff it is neither that nor `global`.
pub fn global_kind(word: &[u8]) -> Option<bool>
    ensures { result ≡ words.meaning items.global_kinds None word.now }
{
    if word == b"global".as_slice() {
        Some(false)
    } else if word == b"constant".as_slice() {
        Some(true)
    } else {
        None
    }
}

/// Whether a word is a flag of a binary operation.
pub fn is_arithmetic_flag(word: &[u8]) -> bool
    ensures { result ≡ words.is_one_of_words ops.arithmetic_flags word.now }
{
    word == b"nsw".as_slice()
        || word == b"nuw".as_slice()
        || word == b"exact".as_slice()
        || word == b"disjoint".as_slice()
}

/// Whether a word is a flag of a conversion.
pub fn is_cast_flag(word: &[u8]) -> bool
    ensures { result ≡ words.is_one_of_words ops.cast_flags word.now }
{
    word == b"nneg".as_slice() || word == b"nuw".as_slice() || word == b"nsw".as_slice()
}
