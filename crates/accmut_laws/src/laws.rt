//! The laws, as calls without a body.
ghost use Rattle.std.specs.Prelude.{◌≡◌, ℕ, List, Option, Some};
ghost use Rattle.std.specs.List.{Contains};
ghost use Rattle.am_base.specs.Cause.{Rose};
ghost use Rattle.code_form.specs.declared.sign.PortSign.{PortSign};
ghost use Rattle.command_words.specs.Words.{Text};
ghost use Rattle.command_words.specs.declared.command.Command.{Command};
ghost use Rattle.command_plan.specs.Ends.{End, Ends, Text as Whole};
ghost use Rattle.command_plan.specs.Plan.{Counts};
ghost use Rattle.command_plan.specs.Sharp.{IsDueEnd, IsSameEnd};
ghost use Rattle.accmut_app.specs.Commands.{names_of, plan_of};

/// Over two shelves that hold the same files by the names of a command, and with ports of the same
/// signs and answers, the plan of the command ends with one text, and the meter and the asks of each
/// port rise by one number each, whichever counts of faults rose. These are the ends of which the
/// clause `answer` of `accmut` speaks on Done: what is written is a function of the words and of the
/// bytes of the named files alone. No picker occurs in it: what is written doesn't depend on the
/// picker of the wanted name.
pub fn one_text()
    ensures text { (signs : List PortSign) (answers : List (List ℕ → Option ℕ)) (c : Command Text) (held other : List ℕ → Option (List ℕ))
        (old new again later : List ℕ → ℕ) (text also : List ℕ) (counts rise : Counts)
        → ((name : List ℕ) → Contains (names_of c) name → held name ≡ other name)
        → Ends (Some held) (λ name. Rose (old name) (new name)) (plan_of signs answers c) (Whole text counts)
        → Ends (Some other) (λ name. Rose (again name) (later name)) (plan_of signs answers c) (Whole also rise) → text ≡ also }
    ensures rise { (signs : List PortSign) (answers : List (List ℕ → Option ℕ)) (c : Command Text) (held other : List ℕ → Option (List ℕ))
        (old new again later : List ℕ → ℕ) (text also : List ℕ) (counts rise : Counts)
        → ((name : List ℕ) → Contains (names_of c) name → held name ≡ other name)
        → Ends (Some held) (λ name. Rose (old name) (new name)) (plan_of signs answers c) (Whole text counts)
        → Ends (Some other) (λ name. Rose (again name) (later name)) (plan_of signs answers c) (Whole also rise) → counts ≡ rise }
{}

/// Over two such shelves a command is due to end in one way, up to its text and counts: with one
/// status, and where an input is refused, with one line. It is the end of which the clause `due` of
/// `accmut` speaks.
pub fn one_end()
    ensures { (signs : List PortSign) (answers : List (List ℕ → Option ℕ)) (c : Command Text) (held other : List ℕ → Option (List ℕ)) (end also : End)
        → ((name : List ℕ) → Contains (names_of c) name → held name ≡ other name)
        → IsDueEnd held (plan_of signs answers c) end → IsDueEnd other (plan_of signs answers c) also → IsSameEnd end also }
{}
