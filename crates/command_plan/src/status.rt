//! How a command ends, and the exit status of the program for it.

ghost use Rattle.std.specs.Prelude.{◌≡◌};
ghost use Rattle.command_plan.specs.Status.{number_of, refused};

/// How a command ended.
#[derive(Clone, Copy, Debug, PartialEq, Eq)]
pub enum Status {
    /// The command was carried out, and its whole text was written.
    Done,
    /// The words are no command. Nothing was written.
    Usage,
    /// The module isn't accepted; the line that says so was written.
    ModuleRefused,
    /// The list of mutants isn't accepted; the line that says so was written.
    MutantsRefused,
    /// The test suite isn't accepted; the line that says so was written.
    TestsRefused,
    /// A file could not be read. Nothing was written.
    ReadFault,
    /// The sink failed: a proper prefix of the text or of the line of a refusal was written,
    /// perhaps nothing.
    WriteFault,
    /// No memory could be had. Nothing was written.
    OutOfMemory,
    /// The first file that isn't accepted has more than `MAX_FILE_BYTES` bytes. Nothing was
    /// written.
    TooLong,
    /// The list that is asked for would have more than `MAX_LISTED_MUTANTS` mutants. Nothing was
    /// written.
    TooMany,
}

impl Status {
    /// The exit status of a program that ends so, from 0 in the order of the variants.
    pub fn number(self) -> u8
        ensures { result ≡ number_of self }
    {
        match self {
            Status::Done => 0,
            Status::Usage => 1,
            Status::ModuleRefused => 2,
            Status::MutantsRefused => 3,
            Status::TestsRefused => 4,
            Status::ReadFault => 5,
            Status::WriteFault => 6,
            Status::OutOfMemory => 7,
            Status::TooLong => 8,
            Status::TooMany => 9,
        }
    }
}

/// What a refusal is about.
#[derive(Clone, Copy, Debug, PartialEq, Eq)]
pub enum Input {
    /// The module.
    Module,
    /// The list of mutants, or the mutant that is wanted of it.
    Mutants,
    /// The test suite, or the test that is wanted of it.
    Tests,
}

impl Input {
    /// The status of a command that refuses this input.
    pub fn refused(self) -> Status
        ensures { result ≡ refused self }
    {
        match self {
            Input::Module => Status::ModuleRefused,
            Input::Mutants => Status::MutantsRefused,
            Input::Tests => Status::TestsRefused,
        }
    }
}
