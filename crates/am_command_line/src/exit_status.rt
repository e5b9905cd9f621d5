//! The statuses with which am-rehearse ends: the one list of their numbers and of their words.
ghost use Rattle.std.specs.Prelude.{◌≡◌};
ghost use Rattle.am_command_line.specs.ExitStatus.{code_of};

/// How a run of am-rehearse ended.
#[derive(Clone, Copy, PartialEq, Eq)]
pub enum ExitStatus {
    Done,
    /// A file can't be read.
    Unreadable,
    /// A file isn't accepted, or the command line is wrong.
    Rejected,
    NoMemory,
    /// The output wasn't taken.
    Unwritable,
    /// A rehearsal didn't meet an expectation.
    Unmet,
    /// The routes don't have the receivers that are verified, or, if it is asked for, a notification differs.
    Differs,
}

/// The statuses, in the order of their numbers.
pub const EXIT_STATUSES: [ExitStatus; 7] = [
    ExitStatus::Done,
    ExitStatus::Unreadable,
    ExitStatus::Rejected,
    ExitStatus::NoMemory,
    ExitStatus::Unwritable,
    ExitStatus::Unmet,
    ExitStatus::Differs,
];

/// The same for help, which takes a constant text.
pub const STATUSES: &str = "\
Statuses: 0 done; 1 a file isn't readable, or there are no random numbers; \
2 a file or the command line is rejected; 3 out of memory; 4 the output isn't writable; \
5 an expectation isn't met; 6 --verify differs, or --exit-code and a notification differs.";

impl ExitStatus {
    /// Returns the number that the operating system is given.
    pub fn code(self) -> u8
        ensures { result ≡ code_of self }
    {
        match self {
            ExitStatus::Done => 0,
            ExitStatus::Unreadable => 1,
            ExitStatus::Rejected => 2,
            ExitStatus::NoMemory => 3,
            ExitStatus::Unwritable => 4,
            ExitStatus::Unmet => 5,
            ExitStatus::Differs => 6,
        }
    }

    /// Returns what it means, for help and for the manual page.
    pub fn meaning(self) -> &'static str {
        match self {
            ExitStatus::Done => "done",
            ExitStatus::Unreadable => "a file isn't readable, or there are no random numbers",
            ExitStatus::Rejected => "a file or the command line is rejected",
            ExitStatus::NoMemory => "out of memory",
            ExitStatus::Unwritable => "the output isn't writable",
            ExitStatus::Unmet => "an expectation isn't met",
            ExitStatus::Differs => "--verify differs, or --exit-code and a notification differs",
        }
    }
}
