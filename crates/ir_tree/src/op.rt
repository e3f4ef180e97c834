//! Instructions as they are written.
ghost use Rattle.std.specs.Prelude.{◌≡◌, IfOk};

use crate::copies::{four, three, two};
use crate::name::Name;
use crate::operand::Opd;
use crate::type_text::TyText;
use am_base::{BinOp, Cast, OutOfMemory, Pred};
use am_lists::{Items, Same, TryClone};
use std::alloc::{AllocError, Global};

/// An instruction as it is written, without its result, and with its parts in written order. LLVM
/// Language Reference, "Instruction Reference".
#[derive(Drop)]
pub enum Op {
    /// `add` to `xor`: the operation, the type and both operands.
    Bin(BinOp, TyText, Opd, Opd),
    /// `icmp`: the predicate, the type and both operands.
    Cmp(Pred, TyText, Opd, Opd),
    /// `select`: the condition and both values, each with its type.
    Select(TyText, Opd, TyText, Opd, TyText, Opd),
    /// `trunc` to `inttoptr`: the conversion, the operand with its type, and the type it goes to.
    Cast(Cast, TyText, Opd, TyText),
    /// `freeze`: the operand with its type.
    Freeze(TyText, Opd),
    /// `alloca`: the type, and the count with its type where one is written.
    Alloca(TyText, Option<(TyText, Opd)>),
    /// `load`: the type that is loaded, and the address with its type.
    Load(TyText, TyText, Opd),
    /// `store`: the value and the address, each with its type.
    Store(TyText, Opd, TyText, Opd),
    /// `getelementptr`: the type that the indices go into, the base with its type, and each index
    /// with its type.
    Get(TyText, TyText, Opd, Items<(TyText, Opd)>),
    /// `phi`: the type, and each value with the label of the block it comes from.
    Phi(TyText, Items<(Opd, Name)>),
    /// `call`: the type of the result, the callee, and each argument with its type.
    Call(TyText, Name, Items<(TyText, Opd)>),
    /// `br` to one label.
    Jump(Name),
    /// `br` by a condition: the condition with its type, the label where it holds, and the other.
    Branch(TyText, Opd, Name, Name),
    /// `switch`: the value with its type, the label where no case fits, and for each case its
    /// value with its type and its label.
    Switch(TyText, Opd, Name, Items<(TyText, Opd, Name)>),
    /// `ret`: the value with its type, or nothing for `ret void`.
    Ret(Option<(TyText, Opd)>),
    /// `unreachable`.
    Unreachable,
}

impl Op {
    /// An equal instruction.
    pub fn copy(&self, alloc: Global) -> Result<Op, OutOfMemory>
        ensures { IfOk result (λ op. op ≡ self.now) }
    {
        Ok(self.try_clone(alloc)?)
    }
}

impl TryClone for Op {
    fn try_clone(&self, alloc: Global) -> Result<Op, AllocError> {
        match self {
            Op::Bin(op, ty, a, b) => {
                let (ty, a, b) = three(alloc, ty, a, b)?;
                Ok(Op::Bin(*op, ty, a, b))
            }
            Op::Cmp(pred, ty, a, b) => {
                let (ty, a, b) = three(alloc, ty, a, b)?;
                Ok(Op::Cmp(*pred, ty, a, b))
            }
            Op::Select(s, c, t, a, u, b) => {
                let (s, c) = two(alloc, s, c)?;
                let (t, a, u, b) = four(alloc, t, a, u, b)?;
                Ok(Op::Select(s, c, t, a, u, b))
            }
            Op::Cast(cast, ty, a, to) => {
                let (ty, a, to) = three(alloc, ty, a, to)?;
                Ok(Op::Cast(*cast, ty, a, to))
            }
            Op::Freeze(ty, a) => {
                let (ty, a) = two(alloc, ty, a)?;
                Ok(Op::Freeze(ty, a))
            }
            Op::Alloca(ty, count) => {
                let (ty, count) = two(alloc, ty, count)?;
                Ok(Op::Alloca(ty, count))
            }
            Op::Load(ty, base, a) => {
                let (ty, base, a) = three(alloc, ty, base, a)?;
                Ok(Op::Load(ty, base, a))
            }
            Op::Store(t, a, u, b) => {
                let (t, a, u, b) = four(alloc, t, a, u, b)?;
                Ok(Op::Store(t, a, u, b))
            }
            Op::Get(of, ty, base, indices) => {
                let (of, ty, base, indices) = four(alloc, of, ty, base, indices)?;
                Ok(Op::Get(of, ty, base, indices))
            }
            Op::Phi(ty, entries) => {
                let (ty, entries) = two(alloc, ty, entries)?;
                Ok(Op::Phi(ty, entries))
            }
            Op::Call(ty, callee, args) => {
                let (ty, callee, args) = three(alloc, ty, callee, args)?;
                Ok(Op::Call(ty, callee, args))
            }
            Op::Jump(to) => Ok(Op::Jump(to.try_clone(alloc)?)),
            Op::Branch(ty, a, yes, no) => {
                let (ty, a, yes, no) = four(alloc, ty, a, yes, no)?;
                Ok(Op::Branch(ty, a, yes, no))
            }
            Op::Switch(ty, a, other, cases) => {
                let (ty, a, other, cases) = four(alloc, ty, a, other, cases)?;
                Ok(Op::Switch(ty, a, other, cases))
            }
            Op::Ret(value) => Ok(Op::Ret(value.try_clone(alloc)?)),
            Op::Unreachable => Ok(Op::Unreachable),
        }
    }
}

impl Same for Op {
    fn same(&self, other: &Op) -> bool {
        match (self, other) {
            (Op::Bin(k, t, a, b), Op::Bin(l, u, c, d)) => {
                k == l && t.same(u) && a.same(c) && b.same(d)
            }
            (Op::Cmp(k, t, a, b), Op::Cmp(l, u, c, d)) => {
                k == l && t.same(u) && a.same(c) && b.same(d)
            }
            (Op::Select(s, c, t, a, u, b), Op::Select(x, d, y, e, z, f)) => {
                s.same(x) && c.same(d) && t.same(y) && a.same(e) && u.same(z) && b.same(f)
            }
            (Op::Cast(k, t, a, to), Op::Cast(l, u, b, other)) => {
                k == l && t.same(u) && a.same(b) && to.same(other)
            }
            (Op::Freeze(t, a), Op::Freeze(u, b)) => t.same(u) && a.same(b),
            (Op::Alloca(t, count), Op::Alloca(u, other)) => t.same(u) && count.same(other),
            (Op::Load(t, base, a), Op::Load(u, other, b)) => {
                t.same(u) && base.same(other) && a.same(b)
            }
            (Op::Store(t, a, u, b), Op::Store(x, c, y, d)) => {
                t.same(x) && a.same(c) && u.same(y) && b.same(d)
            }
            (Op::Get(of, t, base, indices), Op::Get(to, u, other, others)) => {
                of.same(to) && t.same(u) && base.same(other) && indices.same(others)
            }
            (Op::Phi(t, entries), Op::Phi(u, others)) => t.same(u) && entries.same(others),
            (Op::Call(t, callee, args), Op::Call(u, other, others)) => {
                t.same(u) && callee.same(other) && args.same(others)
            }
            (Op::Jump(to), Op::Jump(other)) => to.same(other),
            (Op::Branch(t, a, yes, no), Op::Branch(u, b, x, y)) => {
                t.same(u) && a.same(b) && yes.same(x) && no.same(y)
            }
            (Op::Switch(t, a, to, cases), Op::Switch(u, b, other, others)) => {
                t.same(u) && a.same(b) && to.same(other) && cases.same(others)
            }
            (Op::Ret(value), Op::Ret(other)) => value.same(other),
            (Op::Unreachable, Op::Unreachable) => true,
            _ => false,
        }
    }
}
