//! Flushes that stay open, while others begin and end.
use crate::alerts::Load;
use crate::config::plain;
use crate::desk::{BOARD_ID, Desk, deliver_all};
use crate::piece::{FIRST, SECOND, insert};
use crate::tally::Tally;
use crate::watch::{Took, Watch};
use crate::words::BenchError;
use am_board::own_ticket::OwnTicket;
use std::alloc::Global;
use std::collections::VecDeque;
use std::rt::Clock;
use std::time::CpuClock;

/// How many flushes begin at a time.
const BATCH: usize = 100;

/// Which of the open flushes end.
#[derive(Clone, Copy)]
enum End {
    Oldest,
    Newest,
}

/// What the calls of a half took, and how many were accepted.
#[derive(Clone, Copy)]
struct Half {
    end: End,
    begin: Took,
    next_due: Took,
    note: Took,
    finish: Took,
    due: usize,
    noted: usize,
    finished: usize,
}

/// Runs the piece on so many groups, of which so many have an open flush.
pub fn run_hanging(
    rt: &(impl Print + Eprint + Clock + CpuClock),
    alloc: Global,
    flushes: usize,
    groups: usize,
) -> Result<(), BenchError> {
    let mut desk = Desk::open(alloc, plain(alloc)?, false)?;
    let mut tickets = VecDeque::new(alloc);
    let ran = run_steps(rt, alloc, &mut desk, &mut tickets, flushes, groups);
    desk.finish_all(tickets, SECOND);
    drop(desk);
    ran
}

fn run_steps(
    rt: &(impl Print + Eprint + Clock + CpuClock),
    alloc: Global,
    desk: &mut Desk,
    tickets: &mut VecDeque<OwnTicket<BOARD_ID>>,
    flushes: usize,
    groups: usize,
) -> Result<(), BenchError> {
    let load = Load {
        alerts: groups,
        groups,
    };
    let new = load.build(alloc, 0..groups, 1, None)?;
    insert(rt, alloc, desk, "new inserts", 0, new)?;
    begin(rt, alloc, desk, tickets, FIRST, flushes)?;
    let more = groups.saturating_sub(flushes) / 2;
    run_half(rt, alloc, desk, tickets, End::Oldest, more)?;
    run_half(rt, alloc, desk, tickets, End::Newest, more)
}

/// Begins so many flushes from a time on, which stay open.
pub fn begin(
    rt: &(impl Print + Eprint + Clock + CpuClock),
    alloc: Global,
    desk: &mut Desk,
    tickets: &mut VecDeque<OwnTicket<BOARD_ID>>,
    now: u64,
    count: usize,
) -> Result<(), BenchError> {
    let watch = Watch::of(rt, "begins");
    desk.begin_many(alloc, now, count, tickets)?;
    watch.stop(rt, "begins", count);
    print_begun(rt, tickets.len())
}

fn print_begun(rt: &impl Print, flushes: usize) -> Result<(), BenchError> {
    println!(rt; "begins: open {flushes}")?;
    Ok(())
}

/// Flushes so many groups more.
fn run_half(
    rt: &(impl Print + Eprint + Clock + CpuClock),
    alloc: Global,
    desk: &mut Desk,
    tickets: &mut VecDeque<OwnTicket<BOARD_ID>>,
    end: End,
    count: usize,
) -> Result<(), BenchError> {
    let mut half = Half::new(end);
    let batch = count.min(BATCH);
    for _ in 0..count.checked_div(batch).unwrap_or(0) {
        half.begin_batch(rt, alloc, desk, tickets, batch)?;
        half.end_batch(rt, alloc, desk, tickets, batch);
    }
    half.print(rt, tickets.len())
}

impl Half {
    fn new(end: End) -> Half {
        Half {
            end,
            begin: Took::nothing(),
            next_due: Took::nothing(),
            note: Took::nothing(),
            finish: Took::nothing(),
            due: 0,
            noted: 0,
            finished: 0,
        }
    }

    /// Begins flushes, and asks as often when the next one is due.
    fn begin_batch(
        &mut self,
        clock: &(impl Clock + CpuClock),
        alloc: Global,
        desk: &mut Desk,
        tickets: &mut VecDeque<OwnTicket<BOARD_ID>>,
        batch: usize,
    ) -> Result<(), BenchError> {
        // (what is written to memory makes each call look anew)
        let mut due = Vec::with_capacity(alloc, batch)?;
        let watch = Watch::start(clock);
        desk.begin_many(alloc, SECOND, batch, tickets)?;
        self.begin.add(clock, &watch);
        let watch = Watch::start(clock);
        for _ in 0..batch {
            due.push(desk.next_due())?;
        }
        self.next_due.add(clock, &watch);
        for it in due {
            self.due = self.due.saturating_add(it.is_some() as usize);
        }
        Ok(())
    }

    /// Notes flushes whose notices are delivered, and finishes them.
    fn end_batch(
        &mut self,
        clock: &(impl Clock + CpuClock),
        alloc: Global,
        desk: &mut Desk,
        tickets: &mut VecDeque<OwnTicket<BOARD_ID>>,
        batch: usize,
    ) {
        self.deliver(tickets, batch);
        let watch = Watch::start(clock);
        self.note_batch(alloc, desk, tickets, batch);
        self.note.add(clock, &watch);
        let watch = Watch::start(clock);
        self.finish_batch(desk, tickets, batch);
        self.finish.add(clock, &watch);
    }

    fn deliver(&self, tickets: &mut VecDeque<OwnTicket<BOARD_ID>>, batch: usize) {
        for number in 0..batch {
            let place = self.end.place(tickets.len(), number);
            if let Some(own) = tickets.get_mut(place) {
                deliver_all(own, SECOND, &mut Tally::new());
            }
        }
    }

    fn note_batch(
        &mut self,
        alloc: Global,
        desk: &mut Desk,
        tickets: &VecDeque<OwnTicket<BOARD_ID>>,
        batch: usize,
    ) {
        for number in 0..batch {
            let place = self.end.place(tickets.len(), number);
            if let Some(own) = tickets.get(place) {
                let noted = desk.note(alloc, own, SECOND);
                self.noted = self.noted.saturating_add(noted as usize);
            }
        }
    }

    fn finish_batch(
        &mut self,
        desk: &mut Desk,
        tickets: &mut VecDeque<OwnTicket<BOARD_ID>>,
        batch: usize,
    ) {
        for _ in 0..batch {
            let ended = match self.end {
                End::Oldest => tickets.pop_front(),
                End::Newest => tickets.pop_back(),
            };
            match ended {
                Some(own) => {
                    let finished = desk.finish(own, SECOND);
                    self.finished = self.finished.saturating_add(finished as usize);
                }
                None => {}
            }
        }
    }

    fn print(&self, rt: &(impl Print + Eprint), flushes: usize) -> Result<(), BenchError> {
        let (due, noted, finished) = (self.due, self.noted, self.finished);
        let end = self.end.name();
        eprintln!(rt; "{end} first")?;
        self.begin.print(rt, "begin", finished);
        self.next_due.print(rt, "next_due", due);
        self.note.print(rt, "note", noted);
        self.finish.print(rt, "finish", finished);
        println!(rt; "{end} first: due {due}, noted {noted}, finished {finished}, open {flushes}")?;
        Ok(())
    }
}

impl End {
    fn name(self) -> &'static str {
        match self {
            End::Oldest => "oldest",
            End::Newest => "newest",
        }
    }

    /// The place among so many flushes of one from this end.
    fn place(self, flushes: usize, number: usize) -> usize {
        match self {
            End::Oldest => number,
            End::Newest => flushes.saturating_sub(number).saturating_sub(1),
        }
    }
}
