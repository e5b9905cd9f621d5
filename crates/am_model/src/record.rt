//! `Record`: an accepted call with its pass and its reply. Histories are lists of records.
use crate::boxed::Boxed;
use crate::group::GroupName;
use crate::notice::Notice;
use crate::views::RowView;
use am_alerts::alert::Alert;
use am_alerts::matcher::MatcherParts;
use am_alerts::sequence::Sequence;
use am_retry::Outcome;
use std::mem::size_of;

/// The reply to an insert.
#[derive(Clone, Copy, Debug, PartialEq, Eq)]
pub struct Inserted {
    /// The number of this insert among all inserts.
    pub stamp: u64,
    /// To how many groups the alert went.
    pub groups: usize,
    /// How many of these groups were made for it.
    pub made: usize,
}

/// The reply to a silence.
#[derive(Clone, Copy, Debug, PartialEq, Eq)]
pub struct Silenced {
    /// Whether it replaced one with its id.
    pub replaced: bool,
}

/// The reply to a finish.
#[derive(Clone, Copy, Debug, PartialEq, Eq)]
pub struct Finished {
    /// How many rows were put into the log.
    pub logged: usize,
    /// How many alerts left the group.
    pub removed: usize,
}

/// The reply to a maintenance.
#[derive(Clone, Copy, Debug, PartialEq, Eq)]
pub struct Maintained {
    /// How many groups went.
    pub groups: usize,
    /// How many log rows went.
    pub entries: usize,
}

/// The reply to a removal of empty groups.
#[derive(Clone, Copy, Debug, PartialEq, Eq)]
pub struct EmptyGroupsRemoved {
    /// How many groups went.
    pub groups: usize,
}

/// The reply to a forgetting.
#[derive(Clone, Copy, Debug, PartialEq, Eq)]
pub struct Forgotten {
    /// How many known alerts went.
    pub alerts: usize,
    /// How many silences went.
    pub silences: usize,
}

/// The reply to a load: what became of the row.
#[derive(Clone, Copy, Debug, PartialEq, Eq)]
pub enum Loaded {
    /// It is in the log, in place of the one that was there, if any.
    Put,
    /// The log keeps its own row there, whose time is the same or later.
    Kept,
    /// Its expiry is past. The log is as it was.
    Expired,
}

/// The reply to a begin that opened a flush, besides the group.
#[derive(Debug, Drop)]
pub struct Opened {
    /// The number of the flush.
    pub number: u64,
    /// When the flush has to be finished, in milliseconds.
    pub deadline: u64,
    /// One notice for each integration that is notified.
    pub notices: Sequence<Notice>,
}

/// The reply to a note.
#[derive(Clone, Copy, Debug, PartialEq, Eq)]
pub struct Noted;

/// A call with its arguments. Times are in milliseconds, as they were passed.
#[derive(Debug, Drop)]
pub enum Call {
    Insert {
        now: u64,
        alert: Alert,
    },
    Silence {
        now: u64,
        id: u64,
        matchers: Boxed<Sequence<MatcherParts>>,
        start: u64,
        end: u64,
    },
    Begin {
        now: u64,
    },
    /// The outcomes are those of the ticket, with their integrations, in the order of recording.
    Finish {
        now: u64,
        number: u64,
        outcomes: Sequence<(u32, Outcome)>,
    },
    Maintain {
        now: u64,
    },
    RemoveEmptyGroups {
        now: u64,
    },
    Forget {
        now: u64,
    },
    /// The row is the one that was handed in, whatever became of it.
    Load {
        now: u64,
        row: Boxed<RowView>,
    },
    /// The outcome is the one of the ticket for the integration.
    Note {
        now: u64,
        number: u64,
        integration: u32,
        outcome: Option<Outcome>,
    },
}

/// The reply to a call.
#[derive(Debug, Drop)]
pub enum Reply {
    Inserted(Inserted),
    Silenced(Silenced),
    NothingDue,
    Quiet {
        group: GroupName,
        removed: usize,
    },
    Flush {
        group: GroupName,
        opened: Boxed<Opened>,
    },
    Finished(Finished),
    Maintained(Maintained),
    EmptyGroupsRemoved(EmptyGroupsRemoved),
    Forgotten(Forgotten),
    Loaded(Loaded),
    Noted,
}

/// An accepted call.
#[derive(Debug, Drop)]
pub struct Record {
    /// The number of the pass that made the call.
    pub pass: u32,
    pub call: Call,
    pub reply: Reply,
}

// A history has a record for each call, so what is large in few of them is boxed.
const _: () = prove!(size_of::<Record>() == 88);
