//! The laws of canonical texts. Each is a function without a body whose clauses are the law.
ghost use Rattle.ir_tokens.specs.Bytes.{Text};
ghost use Rattle.ir_tokens.specs.Tokens.{Fault, HasFault};
ghost use Rattle.ir_grammar.specs.Instructions.{IsInstruction};
ghost use Rattle.ir_text.specs.Lines.{canon, instruction_text, line, result_text};
ghost use Rattle.ir_text.specs.ReadBack.{IsWide, OperandReadsBack, PartsReadBack};
ghost use Rattle.ir_text.specs.Spelling.{is_plain, is_plain_label};
ghost use Rattle.ir_text.specs.Texts.{AreBytes, IsTextOf, ReadsAsGlobal, ReadsAsLabel};
ghost use Rattle.ir_text.specs.Texts.{ReadsAsLocal};
ghost use Rattle.ir_tree.specs.declared.item.Item.{Item};
ghost use Rattle.ir_tree.specs.declared.item.Item.TheVariants as tree;
ghost use Rattle.ir_tree.specs.declared.name.Name.{Name};
ghost use Rattle.ir_tree.specs.declared.op.Op.{Op};
ghost use Rattle.ir_tree.specs.declared.operand.Opd.TheVariants as opd;
ghost use Rattle.std.specs.Prelude.{Contains, List, Option, [], codes, true, ℕ, ℤ, ◌++◌, ◌∷◌};
ghost use Rattle.std.specs.Prelude.{◌↔◌, ◌≡◌};

/// The canonical text of a module that is read from a text is read as that same module: it has
/// tokens and no fault, they are whole items, each allowed at its place, and the items are those of
/// the module and no others. The text of each of its instructions, without the result, is read as
/// that instruction, and so is that of an instruction that is a text by itself.
pub fn canon_reads_back()
    ensures module { (text : Text) (items : List Item)
        → AreBytes text → IsTextOf text items → IsTextOf (canon items) items }
    ensures only { (text : Text) (items others : List Item)
        → AreBytes text → IsTextOf text items → IsTextOf (canon items) others → others ≡ items }
    ensures fault { (text : Text) (items : List Item) (at : ℕ) (fault : Fault)
        → AreBytes text → IsTextOf text items → HasFault (canon items) at fault → ⊥ }
    ensures instruction { (text : Text) (items : List Item) (n : Option Name) (o : Op)
        → AreBytes text → IsTextOf text items → Contains items (tree.Instr n o)
        → IsInstruction (instruction_text o) o }
    ensures alone { (text : Text) (o : Op)
        → AreBytes text → IsInstruction text o → IsInstruction (instruction_text o) o }
{}

/// Each part of an instruction that stands in a module which is read from a text, or is a text by
/// itself, reads back: its types, operands, labels and callee have canonical texts that are read as
/// they. So do all numbers within 128 signed bits, `true` and `false`.
pub fn parts_read_back()
    ensures module { (text : Text) (items : List Item) (n : Option Name) (o : Op)
        → AreBytes text → IsTextOf text items → Contains items (tree.Instr n o)
        → PartsReadBack o }
    ensures alone { (text : Text) (o : Op) → AreBytes text → IsInstruction text o → PartsReadBack o }
    ensures number { (z : ℤ) → IsWide z → OperandReadsBack (opd.Number z) }
    ensures yes { OperandReadsBack opd.True }
    ensures no { OperandReadsBack opd.False }
{}

/// An instruction that is made of parts that read back, in whatever module they stood, reads back
/// itself: all tokens of its canonical text, without a result, are read as this instruction.
pub fn made_instructions()
    ensures { (o : Op) → PartsReadBack o → IsInstruction (instruction_text o) o }
{}

/// A name is plain iff its plain spelling is read as it: after `%` or `@`, or before `:`, its bytes
/// are a token, and that token's name is these bytes.
pub fn plain_names()
    ensures local { (s : Text) → (is_plain s ≡ true) ↔ ReadsAsLocal s }
    ensures global { (s : Text) → (is_plain s ≡ true) ↔ ReadsAsGlobal s }
    ensures label { (s : Text) → (is_plain_label s ≡ true) ↔ ReadsAsLabel s }
{}

/// The line of an instruction in the text of its module is two blanks, its result and ` = ` if it
/// has one, the text that `print_instruction` gives, and byte 10.
pub fn instruction_lines()
    ensures { (n : Option Name) (o : Op)
        → line (tree.Instr n o) ≡ codes "  " ++ (result_text n ++ (instruction_text o ++ 10 ∷ [])) }
{}
