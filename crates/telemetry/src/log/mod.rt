//! The log of a group, for its operator.
mod event;
mod line;

use crate::limits::{LAST_LINES_MILLIS, LINES_KEPT};
pub use event::{EVENTS, Event, KINDS, Level};
use line::left_out_line;
pub use line::{Field, Value, line_of, put_fields};
use std::alloc::Global;
use std::collections::VecDeque;
use std::io::Eprint;
use std::sync::{Condvar, CondvarTimeouts, Mutex, Wait};
use std::time::{Clock, Duration};

// The period, in milliseconds, over which lines are limited.
const SECOND: u64 = 1_000;

/// The log of a process. Its lines are queued, and a separate thread writes them, so that no other
/// thread blocks on standard error. The number of lines of a kind per second is limited; another line
/// says how many were left out.
#[derive(Drop)]
pub struct Log {
    alloc: Global,
    // The least important level that is written.
    least: Level,
    queue: Mutex<Queue>,
    filled: Condvar,
    emptied: Condvar,
}

// The lines to write, and the counts of each kind.
#[derive(Drop)]
struct Queue {
    lines: VecDeque<String>,
    // Whether a line that was taken from the queue may not be written yet.
    is_writing: bool,
    counts: [Counts; EVENTS],
}

// The counts of lines of a kind: in all, and in the current second.
#[derive(Clone, Copy)]
struct Counts {
    // When the current second began, if there was a line.
    began: Option<Duration>,
    given: u32,
    left_out: u64,
    // When the first of those left out was.
    left_since: Duration,
    total: u64,
}

impl Log {
    /// Returns an empty log. `least` is the least important level that is written.
    pub fn new(alloc: Global, least: Level) -> Log {
        let none = Counts {
            began: None,
            given: 0,
            left_out: 0,
            left_since: Duration::ZERO,
            total: 0,
        };
        Log {
            alloc,
            least,
            queue: Mutex::new(Queue {
                lines: VecDeque::new(alloc),
                is_writing: false,
                counts: [none; EVENTS],
            }),
            filled: Condvar::new(),
            emptied: Condvar::new(),
        }
    }

    /// Returns whether lines of this event are written.
    pub fn has(&self, event: Event) -> bool {
        event.level().is_written(self.least)
    }

    /// Queues the line of an event with these fields, if the log has lines of its level. It is left
    /// out if its kind is at its limit, if the queue is full, or if memory runs out. Returns whether it
    /// is queued.
    pub fn write<R: Wait + Clock>(
        &self,
        rt: &R,
        node: Option<u16>,
        event: Event,
        fields: &[Field<'_>],
    ) -> bool {
        self.write_of(rt, node, event, "", fields)
    }

    /// Like `write`, with fields before these that are already text, each after a space.
    pub fn write_of<R: Wait + Clock>(
        &self,
        rt: &R,
        node: Option<u16>,
        event: Event,
        names: &str,
        fields: &[Field<'_>],
    ) -> bool {
        if !self.has(event) {
            return false;
        }
        let Ok(now) = rt.monotonic() else {
            return false;
        };
        let verdict = self.queue.lock(rt).judge(event, now);
        let is_queued = match verdict {
            Verdict::Write => {
                let line = line_of(rt, self.alloc, node, event, names, fields);
                self.queue.lock(rt).push(event, line.ok(), now)
            }
            Verdict::LeaveOutFirst => false,
            Verdict::LeaveOut => return false,
        };
        self.filled.notify_one();
        is_queued
    }

    /// Returns the number of events of each kind, also of those whose lines were left out.
    pub fn totals<R: Wait>(&self, rt: &R) -> [u64; EVENTS] {
        let mut totals = [0; EVENTS];
        let queue = self.queue.lock(rt);
        for event in KINDS {
            totals[event.place()] = queue.counts[event.place()].total;
        }
        totals
    }

    // Waits for a line; if lines were left out, at most for a second.
    fn wait<R: Wait + Clock>(&self, rt: &R) {
        let queue = self.queue.lock(rt);
        if queue.has_left_out() {
            let _ = self
                .filled
                .wait_timeout_while(rt, queue, second(), |queue| queue.lines.is_empty());
        } else {
            let _ = self.filled.wait_while(
                rt,
                queue,
                |queue| queue.lines.is_empty() && !queue.has_left_out(),
            );
        }
    }

    /// Takes the next line, if there is one: from the queue, or one that says how many of a kind were
    /// left out since a second ago or longer.
    pub fn next<R: Wait + Clock>(&self, rt: &R) -> Option<String> {
        let Ok(now) = rt.monotonic() else {
            return None;
        };
        let mut queue = self.queue.lock(rt);
        if let Some(line) = queue.lines.pop_front() {
            queue.is_writing = true;
            return Some(line);
        }
        let (event, count) = queue.take_left_out(Some(now))?;
        left_out_line(rt, self.alloc, event, count).ok()
    }

    /// Writes queued lines to standard error, for as long as the process runs.
    pub fn write_all<R: Wait + Clock + Eprint>(&self, rt: &R) {
        for _ in rt.forever() {
            self.wait(rt);
            if let Some(line) = self.next(rt) {
                let _ = eprintln!(rt; "{line}");
                self.queue.lock(rt).is_writing = false;
                self.emptied.notify_all();
            }
        }
    }

    /// Queues how many lines of each kind were left out, and waits until the queued lines are written,
    /// at most for `LAST_LINES_MILLIS`.
    pub fn finish<R: Wait + Clock>(&self, rt: &R) {
        let mut queue = self.queue.lock(rt);
        for _ in KINDS {
            if let Some((event, count)) = queue.take_left_out(None) {
                queue.keep(left_out_line(rt, self.alloc, event, count).ok());
            }
        }
        self.filled.notify_one();
        let limit = Duration::from_millis(LAST_LINES_MILLIS);
        let _ = self
            .emptied
            .wait_timeout_while(rt, queue, limit, |queue| queue.has_unwritten());
    }
}

// What to do with a line.
#[derive(Clone, Copy)]
enum Verdict {
    // Write it.
    Write,
    // Leave it out, as the first of its kind: the thread that writes the lines has to wake up within
    // a second.
    LeaveOutFirst,
    // Leave it out, as others before it.
    LeaveOut,
}

impl Queue {
    // Returns what to do with a line of this kind, and counts it.
    fn judge(&mut self, event: Event, now: Duration) -> Verdict {
        let counts = &mut self.counts[event.place()];
        counts.total = counts.total.saturating_add(1);
        if counts.is_over(now) {
            counts.began = Some(now);
            counts.given = 0;
        }
        if counts.given < event.limit() {
            counts.given += 1;
            return Verdict::Write;
        }
        counts.leave_out(now);
        if counts.left_out == 1 {
            Verdict::LeaveOutFirst
        } else {
            Verdict::LeaveOut
        }
    }

    // Queues a line. Counts it as left out if there is no memory for it or the queue is full, and
    // returns false.
    fn push(&mut self, event: Event, line: Option<String>, now: Duration) -> bool {
        let is_kept = self.keep(line);
        if !is_kept {
            self.counts[event.place()].leave_out(now);
        }
        is_kept
    }

    // Queues a line. Returns false if there is no memory for it or the queue is full.
    fn keep(&mut self, line: Option<String>) -> bool {
        match line {
            Some(line) => self.lines.len() < LINES_KEPT && self.lines.push_back(line).is_ok(),
            None => false,
        }
    }

    // Returns whether a line isn't written yet.
    fn has_unwritten(&self) -> bool {
        self.is_writing || !self.lines.is_empty()
    }

    // Returns whether lines were left out.
    fn has_left_out(&self) -> bool {
        self.counts.iter().any(|counts| counts.left_out > 0)
    }

    // Takes a kind of which lines were left out since a second before `now` or longer, if that is
    // given, and their number.
    fn take_left_out(&mut self, now: Option<Duration>) -> Option<(Event, u64)> {
        for event in KINDS {
            let counts = &mut self.counts[event.place()];
            if counts.left_out > 0 && counts.is_due(now) {
                let count = counts.left_out;
                counts.left_out = 0;
                return Some((event, count));
            }
        }
        None
    }
}

impl Counts {
    // Counts a line that is left out.
    fn leave_out(&mut self, now: Duration) {
        if self.left_out == 0 {
            self.left_since = now;
        }
        self.left_out = self.left_out.saturating_add(1);
    }

    // Returns whether the first line of those left out was a second before `now` or earlier, if that
    // is given.
    fn is_due(&self, now: Option<Duration>) -> bool {
        match now {
            Some(now) => now.saturating_sub(self.left_since) >= second(),
            None => true,
        }
    }

    // Returns whether the current second is over.
    fn is_over(&self, now: Duration) -> bool {
        match self.began {
            Some(began) => now.saturating_sub(began) >= second(),
            None => true,
        }
    }
}

fn second() -> Duration {
    Duration::from_millis(SECOND)
}
