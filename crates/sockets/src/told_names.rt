//! The names of start-up parameters without effect that a node's log had lately.
use crate::dropped::{put_dropped, put_name};
use crate::limits::{NAME_MILLIS, NAMES_KEPT};
use startup::Reports;
use std::alloc::{AllocError, Global};
use std::sync::{Mutex, Wait};
use std::time::{Clock, Duration};

// How many bytes a packet's length and code take (PostgreSQL manual, "Message Formats").
const HEADER: usize = 8;

/// The names of start-up parameters without effect that the log of a node had within a minute, so that
/// it has each of them once. There are few: while as many are kept as there may be, the log gets no
/// others.
#[derive(Drop)]
pub struct ToldNames {
    alloc: Global,
    kept: Mutex<Vec<Told>>,
}

// A name that the log had.
#[derive(Drop)]
struct Told {
    name: Vec<u8>,
    at: Duration,
}

impl ToldNames {
    /// Returns no names.
    pub fn new(alloc: Global) -> ToldNames {
        ToldNames {
            alloc,
            kept: Mutex::new(Vec::new(alloc)),
        }
    }

    /// Returns the names of a start-up packet's parameters that have no effect and don't have the value
    /// of a report, without those that the log had within a minute. There are commas between them.
    pub fn untold<R: Wait + Clock>(
        &self,
        rt: &R,
        packet: &[u8],
        reports: &Reports,
    ) -> Result<Vec<u8>, AllocError> {
        let mut dropped = Vec::new(self.alloc);
        put_dropped(packet.get(HEADER..).unwrap_or(&[]), reports, &mut dropped)?;
        let mut untold = Vec::new(self.alloc);
        if dropped.is_empty() {
            return Ok(untold);
        }
        let now = rt.monotonic().map_err(|_| AllocError)?;
        let kept = self.kept.lock(rt);
        for name in dropped.as_slice().split(|byte| *byte == b',') {
            if is_told_now(kept.as_slice(), name, now) {
                put_name(name, &mut untold)?;
            }
        }
        Ok(untold)
    }

    /// The log has these names now. They have commas between them.
    pub fn note<R: Wait + Clock>(&self, rt: &R, names: &[u8]) {
        let Ok(now) = rt.monotonic() else {
            return;
        };
        let mut kept = self.kept.lock(rt);
        for name in names.split(|byte| *byte == b',') {
            if let Ok(name) = Vec::from_slice(self.alloc, name) {
                keep(&mut kept, Told { name, at: now });
            }
        }
    }
}

// Whether the log gets this name: it didn't have it within a minute, and can be kept.
fn is_told_now(kept: &[Told], name: &[u8], now: Duration) -> bool {
    match kept.iter().find(|told| told.name.as_slice() == name) {
        Some(told) => told.is_old(now),
        None => kept.len() < NAMES_KEPT || kept.iter().any(|told| told.is_old(now)),
    }
}

// Keeps a name: at its place, or else at that of an old one, or at the end.
fn keep(kept: &mut Vec<Told>, told: Told) {
    let own = kept
        .iter()
        .position(|other| other.name.as_slice() == told.name.as_slice());
    let place = match own {
        Some(place) => Some(place),
        None => kept.iter().position(|other| other.is_old(told.at)),
    };
    match place {
        Some(place) => {
            if let Some(other) = kept.get_mut(place) {
                *other = told;
            }
        }
        None => {
            if kept.len() < NAMES_KEPT {
                let _ = kept.push(told);
            }
        }
    }
}

impl Told {
    // Whether the log had it a minute ago, or longer.
    fn is_old(&self, now: Duration) -> bool {
        now.saturating_sub(self.at) >= Duration::from_millis(NAME_MILLIS)
    }
}
