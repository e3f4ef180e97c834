//! The laws of the makers. Each is a function without a body whose clauses are the law.
ghost use Rattle.std.specs.Prelude.{All, AllPairs, Err, List, Ok, [], ◌∷◌};
ghost use Rattle.std.specs.List.{AllZip};
ghost use Rattle.code_form.specs.declared.sign.PortSign.{PortSign};
ghost use Rattle.ir_rules.specs.Codes.{op_code};
ghost use Rattle.ir_rules.specs.Memory.{Addresses};
ghost use Rattle.ir_rules.specs.Settings.{Setting};
ghost use Rattle.ir_tokens.specs.Bytes.{Text};
ghost use Rattle.ir_tree.specs.declared.op.Op.{Op};
ghost use Rattle.command_files.specs.declared.module.Loaded.{Loaded};
ghost use Rattle.mutant_maker.specs.Lists.{made};
ghost use Rattle.mutant_maker.specs.Makers.{replacements_of};
ghost use Rattle.mutant_maker_laws.specs.Made.{HasVariant, IsAsked, IsDifferent, IsListable};
ghost use Rattle.mutant_maker_laws.specs.Made.{IsOther, MadeAnswer, MadeGive};
ghost use Rattle.mutant_maker_laws.specs.Tried.{AreLeft, tried};
ghost use Rattle.mutant_records.specs.Tables.{AllFit};
ghost use Rattle.mutant_records.specs.declared.error.MutantError.{MutantError};
ghost use Rattle.mutant_records.specs.declared.list.Made.{Made as Asked};
ghost use Rattle.mutant_records.specs.declared.list.MutantList.{MutantList};

/// The made mutants of a module without a fault are a list of mutants without a fault, if they are
/// no more than such a list may have: the header and their records, read as `read_mutants` reads
/// the records of a text. Each record asks for its instruction, none asks for what stands in its
/// place, and no two ask for the same in one place, so in the list that `read_mutants` gives for
/// these records no mutant has variant 0.
pub fn made_mutants_are_accepted()
    ensures accepted { (signs : List PortSign) (text : Text) (m : Loaded)
        → IsListable signs text m → (asked : List Asked) × MadeGive signs m (Ok asked) }
    ensures no_fault { (signs : List PortSign) (text : Text) (m : Loaded) (e : MutantError)
        → IsListable signs text m → MadeGive signs m (Err e) → ⊥ }
    ensures asked { (signs : List PortSign) (text : Text) (m : Loaded) (asked : List Asked)
        → IsListable signs text m → MadeGive signs m (Ok asked)
        → AllZip (IsAsked m.module.items signs m.code) (made m.module m.code) asked }
    ensures other { (signs : List PortSign) (text : Text) (m : Loaded) (asked : List Asked)
        → IsListable signs text m → MadeGive signs m (Ok asked)
        → All (IsOther m.code) asked }
    ensures different { (signs : List PortSign) (text : Text) (m : Loaded) (asked : List Asked)
        → IsListable signs text m → MadeGive signs m (Ok asked) → AllPairs IsDifferent asked }
    ensures numbered { (signs : List PortSign) (text : Text) (m : Loaded) (list : MutantList)
        → IsListable signs text m → MadeAnswer signs m (Ok list) → All HasVariant list.rows }
{}

/// Each made mutant fits its place: the code stays sound with it, it ends a block where the
/// original does, and goes to no label that the original doesn't have.
pub fn makers_fit()
    ensures { (signs : List PortSign) (text : Text) (m : Loaded) (asked : List Asked)
        → IsListable signs text m → MadeGive signs m (Ok asked)
        → AllFit m.code asked }
{}

/// Of what the makers try in the place of an instruction, in whatever setting it has its code, they
/// leave out exactly what is equal, by its code, to the original or to an earlier one of the same
/// instruction.
pub fn only_equal_ones_are_left_out()
    ensures { (s : Setting) (addresses : Addresses) (o : Op)
        → AreLeft (op_code s addresses) (op_code s addresses o ∷ []) (tried s.kind o) (replacements_of s.kind (op_code s addresses o) o) }
{}
