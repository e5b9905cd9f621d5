//! `Tally`: what became of several stories.
ghost use Rattle.std.specs.Prelude.{◌≡◌};
ghost use Rattle.am_rehearse.specs.Ended.{joined_status};

use am_command_line::exit_status::ExitStatus;

/// What became of the stories so far.
#[derive(Clone, Copy)]
pub(crate) struct Tally {
    stories: u64,
    /// Those with an expectation that isn't met.
    unmet: u64,
    /// Those that didn't run.
    rejected: u64,
    /// The least status that isn't `Done`, if there is one.
    status: ExitStatus,
}

impl Tally {
    /// Returns the tally of no story.
    pub(crate) fn none() -> Tally
        ensures { result.status ≡ ExitStatus.Done }
    {
        Tally {
            stories: 0,
            unmet: 0,
            rejected: 0,
            status: ExitStatus::Done,
        }
    }

    /// Counts a story that ended with a status.
    pub(crate) fn add(&mut self, status: ExitStatus)
        ensures { self.new.status ≡ joined_status self.old.status status }
    {
        self.stories = self.stories.saturating_add(1);
        match status {
            ExitStatus::Done => return,
            ExitStatus::Unmet => self.unmet = self.unmet.saturating_add(1),
            _ => self.rejected = self.rejected.saturating_add(1),
        }
        if self.status == ExitStatus::Done || status.code() < self.status.code() {
            self.status = status;
        }
    }

    /// Returns the status of all: the least that isn't `Done`, if there is one.
    pub(crate) fn status(self) -> ExitStatus
        ensures { result ≡ self.status }
    {
        self.status
    }

    /// Says on standard error what became of the stories.
    pub(crate) fn say<R: Eprint>(self, rt: &R) {
        let Tally {
            stories,
            unmet,
            rejected,
            status: _,
        } = self;
        let met = stories.saturating_sub(unmet).saturating_sub(rejected);
        let _ = eprintln!(rt;
            "am-rehearse: {stories} stories: {met} as expected, {unmet} with an expectation that isn't met, {rejected} rejected"
        );
    }
}
