//! The commands, as values.

ghost use Rattle.std.specs.Prelude.{◌≡◌};
ghost use Rattle.std.specs.Option.{option_copied};
ghost use Rattle.command_words.specs.Words as spec;

/// The names of the three files that a command reads.
#[derive(Clone, Copy)]
pub struct Files<N> {
    pub module: N,
    pub mutants: N,
    pub tests: N,
}

/// A command, with names of type `N`: `&str` here, their bytes in contracts.
///
/// A budget is from 1 to `MAX_BUDGET`, and holds for the tests that state none. A mutant, a test
/// and a step are numbers below 10^10, whether or not there is one: mutant 0 is the unchanged
/// program, and tests count from 1. The number of a workload is below 10^10 too.
#[derive(Clone, Copy)]
pub enum Command<N> {
    /// The verdicts of all mutants on all tests, with the splits where they are asked for.
    Run {
        files: Files<N>,
        budget: Option<u64>,
        order: Option<N>,
        splits: bool,
    },
    /// Whether a module is accepted.
    Check {
        module: N,
    },
    /// The list of the mutants that the makers make of a module.
    Make {
        module: N,
    },
    /// The run of one mutant on one test by itself.
    Alone {
        files: Files<N>,
        mutant: u64,
        test: u64,
        budget: Option<u64>,
    },
    /// The mutants whose changes are equal up to a step of a test.
    Groups {
        files: Files<N>,
        test: u64,
        step: u64,
        budget: Option<u64>,
        order: Option<N>,
    },
    /// A smaller suite that kills the same mutants.
    Reduce {
        files: Files<N>,
        budget: Option<u64>,
        order: Option<N>,
    },
    /// A run over the workload that is built in, of this number.
    Load {
        number: u64,
    },
}

/// The order that is wanted where none is named.
fn order_or_depth<'a>(order: Option<&'a str>) -> &'a str
    ensures { result.now ≡ spec.order_or_depth (option_copied order.entry) }
{
    match order {
        Some(name) => name,
        None => "depth",
    }
}

/// Returns the name of the picker that a command wants, if it wants one.
pub fn wanted<'a>(command: &Command<&'a str>) -> Option<&'a str>
    ensures { option_copied result ≡ spec.wanted (spec.meant command.now) }
{
    match command {
        Command::Run { order, .. } => Some(order_or_depth(*order)),
        Command::Groups { order, .. } => Some(order_or_depth(*order)),
        Command::Reduce { order, .. } => Some(order_or_depth(*order)),
        Command::Load { .. } => Some("depth"),
        Command::Check { .. } | Command::Make { .. } | Command::Alone { .. } => None,
    }
}
