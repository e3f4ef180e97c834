//! The words of the commands.

/// What the program can be asked for, a line for each command with what it does.
pub const COMMANDS: &str = "\
these words are commands:
  check MODULE                          is the module accepted, and how large is it?
  make MODULE                           a list of mutants for it, for a start
  run MODULE MUTANTS TESTS              which test notices which mutant, the score and the work
      [--budget N] [--order depth|breadth|smallest] [--splits]
  alone MODULE MUTANTS TESTS M T        what mutant M does on test T by itself (M = 0: the program)
      [--budget N]
  groups MODULE MUTANTS TESTS T N       which mutants are still together on test T after N changes
      [--budget N] [--order depth|breadth|smallest]
  reduce MODULE MUTANTS TESTS           fewer tests that notice the same mutants
      [--budget N] [--order depth|breadth|smallest]
  load N                                a built-in workload
MODULE, MUTANTS and TESTS are files; docs/FORMATS.md says what is in them. `--budget` is the number of
changes after which a test that states none is cut off.";

/// What `accmut_view` can be asked for.
pub const VIEWS: &str = "\
these words are commands:
  number MODULE                         its instructions with the numbers that a list of mutants calls
                                        them by, in the form of such a list
  page MODULE MUTANTS TESTS             what `accmut run` finds, as a page in HTML
MODULE, MUTANTS and TESTS are files; docs/FORMATS.md says what is in them.";

/// The programs that a person can call.
#[derive(Clone, Copy, PartialEq, Eq)]
pub enum Program {
    /// `accmut`
    Accmut,
    /// `accmut_view`
    View,
}

impl Program {
    /// Its name.
    pub fn name(self) -> &'static str {
        match self {
            Program::Accmut => "accmut",
            Program::View => "accmut_view",
        }
    }

    /// What it can be asked for.
    pub fn commands(self) -> &'static str {
        match self {
            Program::Accmut => COMMANDS,
            Program::View => VIEWS,
        }
    }
}

/// Whether a command's name is known.
fn is_command(program: Program, word: &str) -> bool {
    match program {
        Program::Accmut => matches!(
            word,
            "check" | "make" | "run" | "alone" | "groups" | "reduce" | "load"
        ),
        Program::View => matches!(word, "number" | "page"),
    }
}

/// Returns what is wrong with words that are no command, as far as their first word and their
/// options tell; `None` where they don't.
pub fn wrong_word(program: Program, first: &str) -> Option<&'static str> {
    if first == "-h" || first == "--help" {
        None
    } else if is_command(program, first) {
        Some("this command doesn't take these words")
    } else {
        Some("the first word is no command")
    }
}
