//! What is expected of a rehearsal.
ghost use Rattle.std.specs.Prelude.{◌≡◌};
ghost use Rattle.am_terms.specs.Expectation.{allows, reason_named, wanted_words};

use am_alerts::labels::Labels;
use am_alerts::matcher::Matcher;
use am_alerts::sequence::Sequence;
use am_alerts::text::Text;

/// An expectation about the delivered notices of a span.
///
/// The time of a notice is the end of its sending.
#[derive(Drop)]
pub struct Expectation {
    /// What it is called in answers.
    pub name: Option<Text>,
    /// The first time of the span, in milliseconds.
    pub from: u64,
    /// The last time of the span, in milliseconds.
    pub to: u64,
    /// The name of the receiver; none means every receiver.
    pub receiver: Option<Text>,
    /// The kind of the integration; none means every kind.
    pub kind: Option<Text>,
    /// The position of the integration in its receiver; none means every integration.
    pub integration: Option<u32>,
    /// What a notice has to say to be counted.
    pub content: Content,
    /// How many such notices are expected.
    pub amount: Amount,
}

/// How many notices are expected.
#[derive(Clone, Copy, PartialEq, Eq)]
pub enum Amount {
    AtLeastOne,
    Exactly(u64),
    AtMost(u64),
}

impl Amount {
    /// Returns whether so many notices are as many as are expected.
    pub fn allows(self, count: u64) -> bool
        ensures { result ≡ allows self count }
    {
        match self {
            Amount::AtLeastOne => count >= 1,
            Amount::Exactly(wanted) => count == wanted,
            Amount::AtMost(most) => count <= most,
        }
    }
}

/// What a notice has to say. A part that is none isn't compared.
#[derive(Drop)]
pub struct Content {
    /// One of the firing alerts matches all of these.
    pub has: Option<Sequence<Matcher>>,
    /// One of the resolved alerts matches all of these.
    pub has_resolved: Option<Sequence<Matcher>>,
    /// The firing alerts have exactly these label sets, in any order.
    pub firing: Option<Sequence<Labels>>,
    /// The resolved alerts have exactly these label sets, in any order.
    pub resolved: Option<Sequence<Labels>>,
    /// The notice was sent for this reason.
    pub reason: Option<SentReason>,
}

/// Why a notice is sent, as its line in the timeline says it.
#[derive(Clone, Copy)]
pub enum SentReason {
    FirstNotice,
    /// A first notice, since the entry of the notification log had expired.
    LogEntryExpired,
    NewAlert,
    AllResolved,
    NewlyResolved,
    Repeat,
}

impl SentReason {
    /// Returns its words in a line of the timeline.
    pub fn words(self) -> &'static str
        ensures { result.now ≡ wanted_words self }
    {
        match self {
            SentReason::FirstNotice => "first notice",
            SentReason::LogEntryExpired => "log entry expired",
            SentReason::NewAlert => "new alert",
            SentReason::AllResolved => "all resolved",
            SentReason::NewlyResolved => "newly resolved",
            SentReason::Repeat => "repeat",
        }
    }
}

/// Returns the reason for which a notice is sent, by its words in a line of the timeline.
pub fn reason_named(words: &str) -> Option<SentReason>
    ensures { result ≡ reason_named words.now }
{
    match words {
        "first notice" => Some(SentReason::FirstNotice),
        "log entry expired" => Some(SentReason::LogEntryExpired),
        "new alert" => Some(SentReason::NewAlert),
        "all resolved" => Some(SentReason::AllResolved),
        "newly resolved" => Some(SentReason::NewlyResolved),
        "repeat" => Some(SentReason::Repeat),
        _ => None,
    }
}
