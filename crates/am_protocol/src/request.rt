//! What a line asks, and how it is read.
//!
//! A line is an object with one member. The member's name is that of a call, and its value has the arguments.
ghost use Rattle.std.specs.Prelude.{◌≡◌, ◌≢◌, ◌≤◌, ℕ, List, Option, IfErr, IfOk, IfSome, IsErrAnd, IsTrue, None, Some, codes, length};
ghost use Rattle.serde_json.specs.Data.{no_members};
ghost use Rattle.serde_json.specs.Find.{as_object};
ghost use Rattle.serde_json.specs.View.{members_view, view};
ghost use Rattle.am_alerts.specs.AlertData.{alert_fault, alert_of};
ghost use Rattle.am_alerts.specs.Matcher.{compare_texts};
ghost use Rattle.am_alerts.specs.declared.labels.Label.{Label};
ghost use Rattle.am_alerts.specs.declared.limits.TheConstants.{MAX_MATCHERS};
ghost use Rattle.am_alerts.specs.declared.matcher.MatcherParts.{MatcherParts};
ghost use Rattle.am_json.specs.Configured.{DecodesToLabels, DecodesToMatcher};
ghost use Rattle.am_json.specs.Decoding.{Has, HasIf, IsList, IsNumber, IsText};
ghost use Rattle.am_json.specs.Read.{Excludes, IsRefusedBy, is_refusal};
ghost use Rattle.am_mute.specs.Silence.{silence_fault, silence_of};
ghost use Rattle.am_protocol.specs.Request.{DecodesToListed, HasNoArguments, IsCallOf, IsGroupLabels, IsOutcome, IsPosition, IsRequestIn};
ghost use Rattle.am_protocol.specs.Call.{form_fault};
ghost use Rattle.am_protocol.specs.Request.{IsSureRequestIn, is_never_refused, outcome_word};

use crate::call::{CallName, call_named, only_member};
use crate::check::LinePart;
use crate::opening::{Opening, read_clocked, read_own, read_theirs};
use crate::time::{ends, now_at, time_at, time_or};
use am_alerts::alert::{Alert, AlertFault};
use am_alerts::labels::Labels;
use am_alerts::limits::{MAX_MATCHERS, MAX_TIME};
use am_alerts::matcher::Matcher;
use am_alerts::text::Text;
use am_json::fault::{FaultKind, InputFault};
use am_json::labels::read_labels;
use am_json::reader::{FromJson, Object, Reader};
use am_mute::silence::{Silence, SilenceFault};
use am_retry::Outcome;

/// The greatest position of an integration that is read: that of 32 bits.
const MAX_POSITION: u64 = 4_294_967_295;

/// What a line asks.
#[derive(Drop)]
pub enum Request {
    /// A new board, in the place of the one before.
    Open(Opening),
    Insert(Insertion),
    /// Several alerts, one after the other, each as in a line of its own.
    Inserts(Vec<ListedInsert>),
    Silence(Silencing),
    Begin(Timed),
    Report(Reporting),
    Note(Noting),
    Finish(Finishing),
    Maintain(Timed),
    RemoveEmptyGroups(Timed),
    Forget(Timed),
    Load(Loading),
    /// When the next group is due.
    NextDue,
    /// What a begin would do.
    Outlook(Timed),
    /// What mutes a label set, and its routes.
    Status(LabelsAt),
    Rows,
    Groups,
    Summary,
    /// The flushes that are open.
    Tickets,
    /// The records that the board keeps, which it then keeps no longer.
    TakeHistory,
    /// Whether a part of another line would be read.
    Check(LinePart),
}

/// An alert to be inserted, at this time in milliseconds.
#[derive(Drop)]
pub struct Insertion {
    pub now: u64,
    pub alert: Alert,
}

/// One of several inserts.
#[derive(Drop)]
pub enum ListedInsert {
    Read(Insertion),
    /// It is refused, for this fault, and refuses no other.
    Refused(InputFault),
}

/// A silence to be set, at this time in milliseconds.
#[derive(Drop)]
pub struct Silencing {
    pub now: u64,
    pub silence: Silence,
}

/// The time of a call that has no other argument, in milliseconds.
#[derive(Drop)]
pub struct Timed {
    pub now: u64,
}

/// A label set whose status is asked, at this time in milliseconds.
#[derive(Drop)]
pub struct LabelsAt {
    pub now: u64,
    pub labels: Labels,
}

/// How the sending to an integration of an open flush ended.
#[derive(Drop)]
pub struct Reporting {
    pub ticket: u64,
    pub integration: u32,
    pub outcome: Outcome,
}

/// A success to be logged at once, at this time in milliseconds.
#[derive(Drop)]
pub struct Noting {
    pub now: u64,
    pub ticket: u64,
    pub integration: u32,
}

/// A flush to be finished, at this time in milliseconds.
#[derive(Drop)]
pub struct Finishing {
    pub now: u64,
    pub ticket: u64,
}

/// A row of another board's log to be taken over, at this time in milliseconds.
#[derive(Drop)]
pub struct Loading {
    pub now: u64,
    pub row: NamedRow,
}

/// A row of a log as `rows` writes it: by the names of its route, its receiver and its integration. Times are in
/// milliseconds.
#[derive(Drop)]
pub struct NamedRow {
    pub group: NamedGroup,
    /// None where the row doesn't name it.
    pub receiver: Option<Text>,
    pub integration: u32,
    pub kind: Text,
    pub time: u64,
    pub expiry: u64,
    pub firing: Vec<Labels>,
    pub resolved: Vec<Labels>,
}

/// A group by the name of its route.
#[derive(Drop)]
pub struct NamedGroup {
    pub route: Text,
    /// None where it has no labels.
    pub labels: Option<Labels>,
}

/// Reads what a line asks.
///
/// # Errors
///
/// The first value that is refused, in the order of reading. Of an `alertmanager.yml` that is refused for several faults it
/// is the first.
///
/// - Clause `form`: a line that is no object with one member, which has the name of a call, is refused for that.
/// - Clause `refused`: another line is refused only if it is no request, except an `alertmanager.yml` and a pattern that needs
///   a regex.
/// - `NoMemory`: out of memory, also for the pointer of a refusal.
pub fn read_request(reader: &Reader<'_, '_>) -> Result<Request, InputFault>
    ensures requested { IfOk result (IsRequestIn reader.now.mode (view reader.now.value)) }
    ensures form { IfSome (form_fault (view reader.now.value)) (λ kind. IsErrAnd result (IsRefusedBy kind)) }
    ensures refused { IfErr result (Excludes (IsSureRequestIn reader.now.mode (view reader.now.value))) }
{
    let line = reader.object()?;
    let (name, value) = only_member(reader, &line)?;
    let Some(call) = call_named(name) else {
        return Err(reader.refuse_at(&reader.pointer().member(name), FaultKind::Unknown));
    };
    read_call(&line.member(name, value), call)
}

/// Reads the arguments of a call.
fn read_call(value: &Reader<'_, '_>, call: CallName) -> Result<Request, InputFault>
    ensures requested { IfOk result (IsCallOf value.now.mode call (view value.now.value)) }
    ensures refused { IfErr result (Excludes (λ request.
        IsCallOf value.now.mode call (view value.now.value) request × IsTrue (is_never_refused call request))) }
{
    match call {
        CallName::Config => Ok(Request::Open(read_own(value)?)),
        CallName::Alertmanager => Ok(Request::Open(read_theirs(value, None)?)),
        CallName::Open => Ok(Request::Open(read_clocked(value)?)),
        CallName::Insert => Ok(Request::Insert(Insertion::read(value)?)),
        CallName::Inserts => Ok(Request::Inserts(value.list::<ListedInsert>()?)),
        CallName::Silence => Ok(Request::Silence(Silencing::read(value)?)),
        CallName::Begin => Ok(Request::Begin(Timed::read(value)?)),
        CallName::Report => Ok(Request::Report(Reporting::read(value)?)),
        CallName::Note => Ok(Request::Note(Noting::read(value)?)),
        CallName::Finish => Ok(Request::Finish(Finishing::read(value)?)),
        CallName::Maintain => Ok(Request::Maintain(Timed::read(value)?)),
        CallName::RemoveEmptyGroups => Ok(Request::RemoveEmptyGroups(Timed::read(value)?)),
        CallName::Forget => Ok(Request::Forget(Timed::read(value)?)),
        CallName::Load => Ok(Request::Load(Loading::read(value)?)),
        CallName::NextDue => without_arguments(value, Request::NextDue),
        CallName::Outlook => Ok(Request::Outlook(Timed::read(value)?)),
        CallName::Status => Ok(Request::Status(LabelsAt::read(value)?)),
        CallName::Rows => without_arguments(value, Request::Rows),
        CallName::Groups => without_arguments(value, Request::Groups),
        CallName::Summary => without_arguments(value, Request::Summary),
        CallName::Tickets => without_arguments(value, Request::Tickets),
        CallName::TakeHistory => without_arguments(value, Request::TakeHistory),
        CallName::Check => Ok(Request::Check(LinePart::read(value)?)),
    }
}

/// Returns what is asked by a call that has no arguments: its value is an empty object.
fn without_arguments(value: &Reader<'_, '_>, request: Request) -> Result<Request, InputFault>
    ensures asked { IfOk result (λ r. r ≡ request) }
    ensures empty { IfOk result (λ _. HasNoArguments value.now.mode (view value.now.value)) }
    ensures refused { IfErr result (λ fault. IsTrue (is_refusal fault)
        → HasNoArguments value.now.mode (view value.now.value) → ⊥) }
{
    let members = value.object()?;
    members.only(&[])?;
    Ok(request)
}

/// Reads the value of a member that must be there.
fn member<'v, T: FromJson<'v>>(line: &Object<'v, '_>, name: &str) -> Result<T, InputFault>
    ensures decoded { IfOk result (Has (T.decodes_to line.now.mode) name.now (members_view line.now.members)) }
    ensures refused { IfErr result (Excludes (λ x. Has (T.decodes_to line.now.mode) name.now (members_view line.now.members) x
        × IsTrue (T.never_refused x))) }
{
    let value = T::read(&line.required(name)?)?;
    Ok(value)
}

impl<'v> FromJson<'v> for Timed {
    ghost use Rattle.std.specs.Prelude.{true};
    ghost use Rattle.am_protocol.specs.Request.{DecodesToTimed};

    ghost decodes_to = { λ mode value timed. DecodesToTimed mode value timed };

    ghost never_refused = { λ _. true };

    fn read(reader: &Reader<'v, '_>) -> Result<Timed, InputFault> {
        let call = reader.object()?;
        call.only(&["now"])?;
        Ok(Timed {
            now: now_at(&call)?,
        })
    }
}

impl<'v> FromJson<'v> for LabelsAt {
    ghost use Rattle.std.specs.Prelude.{true};
    ghost use Rattle.am_protocol.specs.Request.{DecodesToLabelsAt};

    ghost decodes_to = { λ mode value asked. DecodesToLabelsAt mode value asked };

    ghost never_refused = { λ _. true };

    fn read(reader: &Reader<'v, '_>) -> Result<LabelsAt, InputFault> {
        let call = reader.object()?;
        call.only(&["now", "labels"])?;
        let now = now_at(&call)?;
        let labels = member(&call, "labels")?;
        Ok(LabelsAt { now, labels })
    }
}

impl<'v> FromJson<'v> for Insertion {
    ghost use Rattle.std.specs.Prelude.{true};
    ghost use Rattle.am_protocol.specs.Request.{DecodesToInsertion};

    ghost decodes_to = { λ mode value insertion. DecodesToInsertion mode value insertion };

    ghost never_refused = { λ _. true };

    fn read(reader: &Reader<'v, '_>) -> Result<Insertion, InputFault> {
        let call = reader.object()?;
        call.only(&["now", "labels", "starts", "ends"])?;
        let now = now_at(&call)?;
        let starts = time_or(&call, "starts", now)?;
        let ends = ends(&call)?;
        let labels = member(&call, "labels")?;
        let alert = make_alert(reader, labels, starts, ends)?;
        Ok(Insertion { now, alert })
    }
}

impl<'v> FromJson<'v> for ListedInsert {
    ghost use Rattle.std.specs.Prelude.{true};
    ghost use Rattle.am_protocol.specs.Request.{DecodesToListed};

    ghost decodes_to = { λ mode value insert. DecodesToListed mode value insert };

    ghost never_refused = { λ _. true };

    fn read(reader: &Reader<'v, '_>) -> Result<ListedInsert, InputFault> {
        match Insertion::read(reader) {
            Ok(insertion) => Ok(ListedInsert::Read(insertion)),
            Err(fault) => Ok(ListedInsert::Refused(fault)),
        }
    }
}

/// The alert of these labels and times; the reader is that of the call.
fn make_alert(
    reader: &Reader<'_, '_>,
    labels: Labels,
    starts: u64,
    ends: Option<u64>,
) -> Result<Alert, InputFault>
    ensures alert { IfOk result (λ alert. alert ≡ alert_of labels starts ends) }
    ensures sound { IfOk result (λ alert. alert_fault alert ≡ None) }
    ensures refused { IfErr result (λ _. alert_fault (alert_of labels starts ends) ≢ None) }
{
    match Alert::new(labels, starts, ends) {
        Ok(alert) => Ok(alert),
        Err(fault) => Err(refuse_member(reader, member_at_fault(fault, starts))),
    }
}

/// The member for which an alert that starts then is refused.
fn member_at_fault(fault: AlertFault, starts: u64) -> &'static str {
    match fault {
        AlertFault::NoLabels => "labels",
        AlertFault::BadTime if starts > MAX_TIME => "starts",
        AlertFault::BadTime | AlertFault::EndBeforeStart => "ends",
    }
}

impl<'v> FromJson<'v> for Silencing {
    ghost use Rattle.am_alerts.specs.Matcher.{compare_texts};
    ghost use Rattle.am_protocol.specs.Request.{DecodesToSilencing};

    ghost decodes_to = { λ mode value silencing. DecodesToSilencing mode value silencing };

    ghost never_refused = { λ silencing. compare_texts silencing.silence.matchers };

    fn read(reader: &Reader<'v, '_>) -> Result<Silencing, InputFault> {
        let call = reader.object()?;
        call.only(&["now", "id", "matchers", "starts", "ends"])?;
        let now = now_at(&call)?;
        let id = number_at(&call, "id")?;
        let starts = time_or(&call, "starts", now)?;
        let ends = time_at(&call, "ends")?;
        let matchers = matchers_at(&call)?;
        let silence = make_silence(reader, id, matchers, starts, ends)?;
        Ok(Silencing { now, silence })
    }
}

/// Reads the matchers of a silence. They are counted before the first is read: each can want much memory.
fn matchers_at(call: &Object<'_, '_>) -> Result<Vec<Matcher>, InputFault>
    ensures decoded { IfOk result (λ matchers. Has (IsList (DecodesToMatcher call.now.mode)) (codes "matchers")
        (members_view call.now.members) matchers.items) }
    ensures refused { IfErr result (Excludes (λ (matchers : List MatcherParts).
        Has (IsList (DecodesToMatcher call.now.mode)) (codes "matchers") (members_view call.now.members) matchers
        × IsTrue (compare_texts matchers) × (length matchers ≤ MAX_MATCHERS))) }
{
    let listed = call.required("matchers")?;
    let matchers = listed.list_up_to::<Matcher>(MAX_MATCHERS)?;
    Ok(matchers)
}

/// The silence of these matchers and times; the reader is that of the call.
fn make_silence(
    reader: &Reader<'_, '_>,
    id: u64,
    matchers: Vec<Matcher>,
    starts: u64,
    ends: u64,
) -> Result<Silence, InputFault>
    ensures silence { IfOk result (λ silence. silence ≡ silence_of id matchers.items starts ends) }
    ensures sound { IfOk result (λ silence. silence_fault silence ≡ None) }
    ensures refused { IfErr result (λ _. silence_fault (silence_of id matchers.items starts ends) ≢ None) }
{
    match Silence::new(id, matchers, starts, ends) {
        Ok(silence) => Ok(silence),
        Err(fault) => Err(refuse_member(reader, part_at_fault(fault, starts))),
    }
}

/// The member for which a silence that starts then is refused.
fn part_at_fault(fault: SilenceFault, starts: u64) -> &'static str {
    match fault {
        SilenceFault::NoMatchers | SilenceFault::TooManyMatchers => "matchers",
        SilenceFault::BadTimes if starts > MAX_TIME => "starts",
        SilenceFault::BadTimes => "ends",
    }
}

fn refuse_member(reader: &Reader<'_, '_>, name: &str) -> InputFault {
    reader.refuse_at(&reader.pointer().member(name), FaultKind::BadValue)
}

impl<'v> FromJson<'v> for Reporting {
    ghost use Rattle.std.specs.Prelude.{true};
    ghost use Rattle.am_protocol.specs.Request.{DecodesToReporting};

    ghost decodes_to = { λ mode value reporting. DecodesToReporting mode value reporting };

    ghost never_refused = { λ _. true };

    fn read(reader: &Reader<'v, '_>) -> Result<Reporting, InputFault> {
        let call = reader.object()?;
        call.only(&["ticket", "integration", "outcome"])?;
        Ok(Reporting {
            ticket: number_at(&call, "ticket")?,
            integration: position_at(&call)?,
            outcome: outcome_at(&call)?,
        })
    }
}

impl<'v> FromJson<'v> for Noting {
    ghost use Rattle.std.specs.Prelude.{true};
    ghost use Rattle.am_protocol.specs.Request.{DecodesToNoting};

    ghost decodes_to = { λ mode value noting. DecodesToNoting mode value noting };

    ghost never_refused = { λ _. true };

    fn read(reader: &Reader<'v, '_>) -> Result<Noting, InputFault> {
        let call = reader.object()?;
        call.only(&["now", "ticket", "integration"])?;
        Ok(Noting {
            now: now_at(&call)?,
            ticket: number_at(&call, "ticket")?,
            integration: position_at(&call)?,
        })
    }
}

impl<'v> FromJson<'v> for Finishing {
    ghost use Rattle.std.specs.Prelude.{true};
    ghost use Rattle.am_protocol.specs.Request.{DecodesToFinishing};

    ghost decodes_to = { λ mode value finishing. DecodesToFinishing mode value finishing };

    ghost never_refused = { λ _. true };

    fn read(reader: &Reader<'v, '_>) -> Result<Finishing, InputFault> {
        let call = reader.object()?;
        call.only(&["now", "ticket"])?;
        Ok(Finishing {
            now: now_at(&call)?,
            ticket: number_at(&call, "ticket")?,
        })
    }
}

impl<'v> FromJson<'v> for Loading {
    ghost use Rattle.std.specs.Prelude.{true};
    ghost use Rattle.am_protocol.specs.Request.{DecodesToLoading};

    ghost decodes_to = { λ mode value loading. DecodesToLoading mode value loading };

    ghost never_refused = { λ _. true };

    fn read(reader: &Reader<'v, '_>) -> Result<Loading, InputFault> {
        let call = reader.object()?;
        call.only(&["now", "row"])?;
        let now = now_at(&call)?;
        let row = member(&call, "row")?;
        Ok(Loading { now, row })
    }
}

impl<'v> FromJson<'v> for NamedRow {
    ghost use Rattle.std.specs.Prelude.{true};
    ghost use Rattle.am_protocol.specs.Request.{DecodesToRow};

    ghost decodes_to = { λ mode value row. DecodesToRow mode value row };

    ghost never_refused = { λ _. true };

    fn read(reader: &Reader<'v, '_>) -> Result<NamedRow, InputFault> {
        let row = reader.object()?;
        row.only(&[
            "group",
            "receiver",
            "integration",
            "kind",
            "moment",
            "expiry",
            "firing",
            "resolved",
        ])?;
        let integration = position_at(&row)?;
        let time = time_at(&row, "moment")?;
        let expiry = time_at(&row, "expiry")?;
        let group = member(&row, "group")?;
        let receiver = receiver_at(&row)?;
        let kind = member(&row, "kind")?;
        let firing = label_sets(&row, "firing")?;
        let resolved = label_sets(&row, "resolved")?;
        Ok(NamedRow {
            group,
            receiver,
            integration,
            kind,
            time,
            expiry,
            firing,
            resolved,
        })
    }
}

/// Reads the name of a row's receiver, if the row has it.
fn receiver_at(row: &Object<'_, '_>) -> Result<Option<Text>, InputFault>
    ensures decoded { IfOk result (HasIf IsText (codes "receiver") (members_view row.now.members)) }
    ensures refused { IfErr result
        (Excludes (λ (name : Option (List ℕ)). HasIf IsText (codes "receiver") (members_view row.now.members) name)) }
{
    match row.optional("receiver") {
        None => Ok(None),
        Some(name) => Ok(Some(Text::read(&name)?)),
    }
}

impl<'v> FromJson<'v> for NamedGroup {
    ghost use Rattle.std.specs.Prelude.{true};
    ghost use Rattle.am_protocol.specs.Request.{DecodesToGroup};

    ghost decodes_to = { λ mode value group. DecodesToGroup mode value group };

    ghost never_refused = { λ _. true };

    fn read(reader: &Reader<'v, '_>) -> Result<NamedGroup, InputFault> {
        let group = reader.object()?;
        group.only(&["route", "labels"])?;
        let route = member(&group, "route")?;
        let labels = group_labels_at(&group)?;
        Ok(NamedGroup { route, labels })
    }
}

/// Reads the labels of a group, the member `labels`.
fn group_labels_at(group: &Object<'_, '_>) -> Result<Option<Labels>, InputFault>
    ensures decoded { IfOk result (Has (IsGroupLabels group.now.mode) (codes "labels") (members_view group.now.members)) }
    ensures refused { IfErr result (Excludes (λ (labels : Option (List Label)).
        Has (IsGroupLabels group.now.mode) (codes "labels") (members_view group.now.members) labels)) }
{
    let labels = read_group_labels(&group.required("labels")?)?;
    Ok(labels)
}

/// Reads a label set, or an object without members for none.
fn read_group_labels(reader: &Reader<'_, '_>) -> Result<Option<Labels>, InputFault>
    ensures decoded { IfOk result (IsGroupLabels reader.now.mode (view reader.now.value)) }
    ensures refused { IfErr result (Excludes (λ (labels : Option (List Label)).
        IsGroupLabels reader.now.mode (view reader.now.value) labels)) }
{
    if has_no_members(reader) {
        return Ok(None);
    }
    Ok(Some(read_labels(reader)?))
}

/// Whether a value is an object without members.
fn has_no_members(reader: &Reader<'_, '_>) -> bool
    ensures none { IsTrue result → as_object (view reader.now.value) ≡ Some no_members }
    ensures some { as_object (view reader.now.value) ≡ Some no_members → IsTrue result }
{
    let Ok(object) = reader.object() else {
        return false;
    };
    let members = object.members();
    let count = members.len();
    if count > 0 {
        return false;
    }
    true
}

/// Reads label sets.
fn label_sets(row: &Object<'_, '_>, name: &str) -> Result<Vec<Labels>, InputFault>
    ensures decoded { IfOk result (λ sets. Has (IsList (DecodesToLabels row.now.mode)) name.now
        (members_view row.now.members) sets.items) }
    ensures refused { IfErr result (Excludes (λ (sets : List (List Label)).
        Has (IsList (DecodesToLabels row.now.mode)) name.now (members_view row.now.members) sets)) }
{
    let sets = row.required(name)?.list::<Labels>()?;
    Ok(sets)
}

/// Reads a number that must be there.
fn number_at(call: &Object<'_, '_>, name: &str) -> Result<u64, InputFault>
    ensures decoded { IfOk result (Has IsNumber name.now (members_view call.now.members)) }
    ensures refused { IfErr result (Excludes (Has IsNumber name.now (members_view call.now.members))) }
{
    call.required(name)?.number()
}

/// Reads the position of an integration in its receiver.
fn position_at(call: &Object<'_, '_>) -> Result<u32, InputFault>
    ensures decoded { IfOk result (Has IsPosition (codes "integration") (members_view call.now.members)) }
    ensures refused { IfErr result (Excludes (Has IsPosition (codes "integration") (members_view call.now.members))) }
{
    Ok(call.required("integration")?.number_up_to(MAX_POSITION)? as u32)
}

/// Reads how a sending ended, the member `outcome`.
fn outcome_at(call: &Object<'_, '_>) -> Result<Outcome, InputFault>
    ensures decoded { IfOk result (Has IsOutcome (codes "outcome") (members_view call.now.members)) }
    ensures refused { IfErr result (Excludes (Has IsOutcome (codes "outcome") (members_view call.now.members))) }
{
    read_outcome(&call.required("outcome")?)
}

fn read_outcome(reader: &Reader<'_, '_>) -> Result<Outcome, InputFault>
    ensures decoded { IfOk result (IsOutcome (view reader.now.value)) }
    ensures refused { IfErr result (Excludes (IsOutcome (view reader.now.value))) }
{
    match reader.text()? {
        "delivered" => Ok(Outcome::Delivered),
        "refused" => Ok(Outcome::Refused),
        "expired" => Ok(Outcome::Expired),
        "starved" => Ok(Outcome::Starved),
        _ => Err(reader.refuse(FaultKind::BadValue)),
    }
}

/// Returns the word for how a sending ended.
pub fn outcome_word(outcome: Outcome) -> &'static str
    ensures { result.now ≡ outcome_word outcome }
{
    match outcome {
        Outcome::Delivered => "delivered",
        Outcome::Refused => "refused",
        Outcome::Expired => "expired",
        Outcome::Starved => "starved",
    }
}
