//! `Gathered`: what is drawn of a story, gathered from its dispatchers.
//!
//! Cost: for each insert a look-up by its label set; for each flush that isn't like the one before
//! of its group its muted alerts; for each notice one look-up of its finish, and one for each of its alerts.
ghost use Rattle.std.specs.Prelude.{◌≤◌};
ghost use Rattle.am_alerts.specs.RoutingTree.{last_of};

use crate::alerts::Alerts;
use crate::fold::{Cause, Fold, Mute};
use crate::lane::{BeginRef, Lane, OpenMute, SentItem};
use crate::new_lane::{lane_name, new_lane};
use crate::parts::{finishes_of, notice_of, outcomes_by};
use crate::span::Span;
use crate::story::Story;
use am_alerts::alert::Alert;
use am_alerts::labels::Labels;
use am_alerts::matcher::all_match;
use am_model::config::Config;
use am_model::group::GroupName;
use am_model::notice::{Notice, Report};
use am_model::outcome::outcome_of;
use am_model::preview::MutedAlert;
use am_model::record::{Call, Record};
use am_mute::mute::MuteCause;
use am_seed::Seed;
use am_terms::event::{Event, PreviewedBegin};
use am_timeline::filtered::Filter;
use am_timeline::playback::Playback;
use std::alloc::{AllocError, Global};
use std::collections::HashMap;

/// What is drawn of a story.
#[derive(Drop)]
pub(crate) struct Gathered {
    alloc: Global,
    /// The seed of the first dispatcher, from which hashes start.
    pub(crate) seed: Seed,
    pub(crate) alerts: Alerts,
    /// The folds, in the order in which their first alerts came.
    pub(crate) folds: Vec<Fold>,
    pub(crate) lanes: Vec<Lane>,
    by_labels: HashMap<Labels, usize, Seed>,
    by_key: HashMap<LaneKey, usize, Seed>,
    by_member: HashMap<MemberKey, usize, Seed>,
}

/// A fold and an alert. Their value is the alert's position in the fold.
#[derive(Clone, Copy, PartialEq, Eq, Hash)]
struct MemberKey {
    fold: usize,
    alert: usize,
}

/// A fold, and a route with its receiver and the integrations of that.
#[derive(Drop, PartialEq, Eq, Hash)]
struct LaneKey {
    fold: usize,
    name: String,
}

/// What is known of the dispatcher whose events are gathered.
#[derive(Drop)]
struct Dispatcher<'p> {
    /// How many there are before it.
    position: usize,
    config: &'p Config,
    filter: &'p Filter,
    history: &'p [Record],
    begins: &'p [PreviewedBegin],
    /// The lane of each of its groups.
    by_group: HashMap<GroupName, usize, Seed>,
    /// The position of the record that finished each flush.
    finishes: HashMap<u64, usize, Seed>,
}

impl Gathered {
    /// Returns what is drawn of a story.
    pub(crate) fn of(alloc: Global, story: &Story<'_>) -> Result<Gathered, AllocError> {
        let seed = seed_of(story);
        let mut gathered = Gathered {
            alloc,
            seed,
            alerts: Alerts::new(alloc, seed),
            folds: Vec::new(alloc),
            lanes: Vec::new(alloc),
            by_labels: HashMap::with_hasher(alloc, seed),
            by_key: HashMap::with_hasher(alloc, seed),
            by_member: HashMap::with_hasher(alloc, seed),
        };
        gathered.add_all(story)?;
        gathered.mark_drawn();
        Ok(gathered)
    }

    /// Returns the position of an alert in a fold, if it is there.
    pub(crate) fn position_in(&self, fold: usize, labels: &Labels) -> Option<usize> {
        let alert = self.alerts.index_of(labels)?;
        self.by_member.get(&MemberKey { fold, alert }).copied()
    }

    /// Returns when the alert of a fold fires that these mutes are of.
    pub(crate) fn spans_of(&self, fold: &Fold, mutes: &[Mute]) -> &[Span] {
        let Some(mute) = mutes.first() else {
            return &[];
        };
        let Some(member) = fold.members.as_slice().get(mute.member) else {
            return &[];
        };
        match self.alerts.as_slice().get(member.alert) {
            None => &[],
            Some(alert) => alert.spans.as_slice(),
        }
    }

    fn add_all(&mut self, story: &Story<'_>) -> Result<(), AllocError> {
        for (position, playback) in story.playbacks.iter().enumerate() {
            if position > 0 {
                if let Some(change) = story.changes.get(position - 1) {
                    self.end_all_mutes(change.at);
                }
            }
            self.add_playback(position, playback, story.filter)?;
        }
        for labels in story.missed {
            self.alerts.miss(labels);
        }
        Ok(())
    }

    /// Adds what a dispatcher did.
    fn add_playback(
        &mut self,
        position: usize,
        playback: &Playback<'_>,
        filter: &Filter,
    ) -> Result<(), AllocError> {
        let finishes = finishes_of(self.alloc, self.seed, playback.history())?;
        let mut dispatcher = Dispatcher {
            position,
            config: playback.config(),
            filter,
            history: playback.history(),
            begins: playback.begins(),
            by_group: HashMap::with_hasher(self.alloc, self.seed),
            finishes,
        };
        self.add_records(&mut dispatcher)?;
        self.add_events(&mut dispatcher, playback.events())
    }

    /// Adds the alerts of a history.
    fn add_records(&mut self, dispatcher: &mut Dispatcher<'_>) -> Result<(), AllocError> {
        for record in dispatcher.history {
            self.add_record(dispatcher, record)?;
        }
        Ok(())
    }

    fn add_record(
        &mut self,
        dispatcher: &mut Dispatcher<'_>,
        record: &Record,
    ) -> Result<(), AllocError> {
        match &record.call {
            Call::Insert { now: _, alert } => self.insert(dispatcher, alert),
            _ => Ok(()),
        }
    }

    fn insert(&mut self, dispatcher: &mut Dispatcher<'_>, alert: &Alert) -> Result<(), AllocError> {
        let index = self.alerts.insert(alert)?;
        let dispatchers = dispatcher.position.saturating_add(1);
        if self.alerts.reach(index, dispatchers) {
            return self.locate(dispatcher, alert.labels(), index);
        }
        Ok(())
    }

    /// Puts an alert into the lane of each of its groups.
    fn locate(
        &mut self,
        dispatcher: &mut Dispatcher<'_>,
        labels: &Labels,
        alert: usize,
    ) -> Result<(), AllocError> {
        let is_matched = all_match(self.alloc, dispatcher.filter.matchers.as_slice(), labels)?;
        let routes = dispatcher.config.routes.of(self.alloc, labels)?;
        for route in routes.as_slice() {
            if *route <= dispatcher.config.routes.last() {
                let name = group_of(self.alloc, dispatcher.config, labels, *route)?;
                let lane = self.lane_for(dispatcher, name)?;
                self.add_member(lane, alert)?;
                if let Some(lane) = self.lanes.get_mut(lane) {
                    lane.match_if(is_matched);
                }
            }
        }
        Ok(())
    }

    /// Adds an alert to the fold of a lane, which leads it if it is the first of this dispatcher that got it.
    fn add_member(&mut self, lane: usize, alert: usize) -> Result<(), AllocError> {
        let fold = self.fold_of(lane);
        let key = MemberKey { fold, alert };
        let known = self.by_member.get(&key).copied();
        let Some(found) = self.folds.get_mut(fold) else {
            return Ok(());
        };
        match known {
            Some(position) => {
                found.lead(position, lane);
                Ok(())
            }
            None => {
                let position = found.add_member(alert, lane)?;
                self.by_member.insert(key, position)?;
                Ok(())
            }
        }
    }

    /// The fold of a lane.
    fn fold_of(&self, lane: usize) -> usize {
        match self.lanes.as_slice().get(lane) {
            None => 0,
            Some(lane) => lane.fold,
        }
    }

    /// The lane of a group of a dispatcher, which is made if there is none.
    fn lane_for(
        &mut self,
        dispatcher: &mut Dispatcher<'_>,
        group: GroupName,
    ) -> Result<usize, AllocError> {
        if let Some(lane) = dispatcher.by_group.get(&group) {
            return Ok(*lane);
        }
        let fold = self.fold_for(&group.labels)?;
        let lane = self.lane_in(dispatcher, fold, &group)?;
        dispatcher.by_group.insert(group, lane)?;
        Ok(lane)
    }

    fn fold_for(&mut self, labels: &Labels) -> Result<usize, AllocError> {
        if let Some(fold) = self.by_labels.get(labels) {
            return Ok(*fold);
        }
        let fold = self.folds.len();
        self.by_labels.insert(labels.copy(self.alloc)?, fold)?;
        self.folds
            .push(Fold::new(self.alloc, labels.copy(self.alloc)?))?;
        Ok(fold)
    }

    /// The lane of a group in its fold. A dispatcher before may have made it.
    fn lane_in(
        &mut self,
        dispatcher: &Dispatcher<'_>,
        fold: usize,
        group: &GroupName,
    ) -> Result<usize, AllocError> {
        let name = lane_name(self.alloc, dispatcher.config, group)?;
        let key = LaneKey { fold, name };
        if let Some(lane) = self.by_key.get(&key) {
            return Ok(*lane);
        }
        let position = self.lanes.len();
        self.by_key.insert(key, position)?;
        let lane = new_lane(
            self.alloc,
            dispatcher.config,
            dispatcher.filter,
            fold,
            group,
        )?;
        self.lanes.push(lane)?;
        if let Some(fold) = self.folds.get_mut(fold) {
            fold.add_lane(position)?;
        }
        Ok(position)
    }

    fn add_events(
        &mut self,
        dispatcher: &mut Dispatcher<'_>,
        events: &[Event],
    ) -> Result<(), AllocError> {
        for event in events {
            self.add_event(dispatcher, event)?;
        }
        Ok(())
    }

    fn add_event(
        &mut self,
        dispatcher: &mut Dispatcher<'_>,
        event: &Event,
    ) -> Result<(), AllocError> {
        match event {
            Event::Begun { begin } => self.add_flush(dispatcher, *begin as usize),
            Event::Sent { begin, report } => {
                self.add_sent(dispatcher, *begin as usize, report.get())
            }
        }
    }

    /// Adds a flush: why it sends nothing, and which alerts it leaves out.
    fn add_flush(
        &mut self,
        dispatcher: &mut Dispatcher<'_>,
        begin: usize,
    ) -> Result<(), AllocError> {
        let begins = dispatcher.begins;
        let Some(begun) = begins.get(begin) else {
            return Ok(());
        };
        let position = self.lane_for(dispatcher, begun.preview.group().copy(self.alloc)?)?;
        let now = BeginRef {
            dispatcher: dispatcher.position,
            begin,
        };
        let Some(lane) = self.lanes.get_mut(position) else {
            return Ok(());
        };
        let is_like = is_like_last(begins, lane.last, now, begun);
        lane.last = Some(now);
        lane.add_flush(begun.preview.time(), begun.preview.reasons())?;
        if is_like {
            return Ok(());
        }
        self.mute(position, begun.preview.time(), begun.preview.muted())
    }

    /// Ends the spans of alerts that a flush doesn't leave out any more, and begins those of alerts that it does.
    fn mute(&mut self, position: usize, at: u64, muted: &[MutedAlert]) -> Result<(), AllocError> {
        let fold = self.fold_of(position);
        let open = self.take_open(position);
        self.end_mutes(fold, at, open.as_slice());
        let mut now = Vec::new(self.alloc);
        for alert in muted {
            if let Some(open) = self.begin_mute(fold, position, at, alert)? {
                now.push(open)?;
            }
        }
        if let Some(lane) = self.lanes.get_mut(position) {
            lane.muted = now;
        }
        Ok(())
    }

    /// Ends all spans that have begun: a dispatcher that takes over leaves out nothing before its first flush.
    fn end_all_mutes(&mut self, at: u64) {
        for position in 0..self.lanes.len() {
            let fold = self.fold_of(position);
            let open = self.take_open(position);
            self.end_mutes(fold, at, open.as_slice());
        }
    }

    /// Takes the spans that have begun for a lane.
    fn take_open(&mut self, position: usize) -> Vec<OpenMute> {
        let mut open = Vec::new(self.alloc);
        if let Some(lane) = self.lanes.get_mut(position) {
            std::mem::swap(&mut open, &mut lane.muted);
        }
        open
    }

    fn end_mutes(&mut self, fold: usize, at: u64, open: &[OpenMute]) {
        if let Some(fold) = self.folds.get_mut(fold) {
            for mute in open {
                fold.unmute(mute.mute, at);
            }
        }
    }

    /// Begins the span of an alert, if this lane leads it.
    fn begin_mute(
        &mut self,
        fold: usize,
        lane: usize,
        at: u64,
        muted: &MutedAlert,
    ) -> Result<Option<OpenMute>, AllocError> {
        let Some(member) = self.position_in(fold, &muted.labels) else {
            return Ok(None);
        };
        let cause = self.cause_of(&muted.cause);
        let Some(fold) = self.folds.get_mut(fold) else {
            return Ok(None);
        };
        match fold.members.as_slice().get(member) {
            Some(known) if known.lead == lane => {
                let mute = fold.mute(Mute {
                    member,
                    from: at,
                    to: None,
                    cause,
                })?;
                Ok(Some(OpenMute { member, mute }))
            }
            _ => Ok(None),
        }
    }

    fn cause_of(&mut self, cause: &MuteCause) -> Cause {
        match cause {
            MuteCause::Silenced { id: _, until } => Cause::Silenced { until: *until },
            MuteCause::Inhibited { rule, by } => Cause::Inhibited {
                rule: *rule,
                by: self.alerts.cite(by),
            },
        }
    }

    /// Adds a notice whose sending ended.
    fn add_sent(
        &mut self,
        dispatcher: &mut Dispatcher<'_>,
        begin: usize,
        report: &Report,
    ) -> Result<(), AllocError> {
        let begins = dispatcher.begins;
        let Some(begun) = begins.get(begin) else {
            return Ok(());
        };
        let history = dispatcher.history;
        let Some(notice) = notice_of(history, begun.index, report.integration) else {
            return Ok(());
        };
        let outcomes = outcomes_by(history, &dispatcher.finishes, notice.ticket);
        let Some(outcome) = outcome_of(outcomes, notice.integration) else {
            return Ok(());
        };
        let sent = SentItem {
            begin: BeginRef {
                dispatcher: dispatcher.position,
                begin,
            },
            integration: report.integration,
            outcome,
            attempts: report.attempts,
            since: begun.preview.time(),
            at: report.ended,
        };
        self.add_item(dispatcher, notice, sent)
    }

    fn add_item(
        &mut self,
        dispatcher: &mut Dispatcher<'_>,
        notice: &Notice,
        sent: SentItem,
    ) -> Result<(), AllocError> {
        let position = self.lane_for(dispatcher, notice.group.copy(self.alloc)?)?;
        match self.lanes.get_mut(position) {
            None => Ok(()),
            Some(lane) => lane.add_sent(sent),
        }
    }

    /// Notes which alerts are drawn: those of the folds with a lane that is.
    fn mark_drawn(&mut self) {
        for index in 0..self.folds.len() {
            self.mark_fold(index);
        }
    }

    fn mark_fold(&mut self, index: usize) {
        let lanes = self.lanes.as_slice();
        let alerts = &mut self.alerts;
        if let Some(fold) = self.folds.get_mut(index) {
            if is_drawn(lanes, fold) {
                for member in fold.members.iter_mut() {
                    member.is_first = alerts.draw(member.alert);
                }
            }
        }
    }
}

/// Returns whether a lane of a fold is drawn.
pub(crate) fn is_drawn(lanes: &[Lane], fold: &Fold) -> bool {
    fold.lanes
        .as_slice()
        .iter()
        .any(|lane| is_lane_drawn(lanes, *lane))
}

fn is_lane_drawn(lanes: &[Lane], position: usize) -> bool {
    match lanes.get(position) {
        None => false,
        Some(lane) => lane.is_drawn(),
    }
}

/// The seed of the first dispatcher, from which hashes start.
fn seed_of(story: &Story<'_>) -> Seed {
    match story.playbacks.first() {
        None => Seed::fixed(),
        Some(playback) => playback.logbook().seed(),
    }
}

/// The group that an alert belongs to by a route, which exists.
fn group_of(
    alloc: Global,
    config: &Config,
    labels: &Labels,
    route: u32,
) -> Result<GroupName, AllocError>
    requires { route ≤ last_of config.now.routes }
{
    let labels = config.routes.group_labels(alloc, route, labels)?;
    Ok(GroupName { route, labels })
}

/// Whether a begin is like the last one of its lane, if that is of the same dispatcher.
fn is_like_last(
    begins: &[PreviewedBegin],
    last: Option<BeginRef>,
    now: BeginRef,
    begun: &PreviewedBegin,
) -> bool {
    let Some(last) = last else {
        return false;
    };
    match begins.get(last.begin) {
        Some(before) if last.dispatcher == now.dispatcher => before.preview.is_like(&begun.preview),
        _ => false,
    }
}
