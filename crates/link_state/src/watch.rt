//! A watch over the parameters that a server reports.
ghost use Rattle.std.specs.Prelude.{◌≡◌, ◌+◌, ◌<◌, ◌≤◌, ℕ, List, [], ◌∷◌, ◌++◌, false, length, map, option_to_list, slice_get, IfOk, IfNone, IfSome, OnOk};
ghost use Rattle.pg_frames.specs.declared.frame.Frame.{Frame};
ghost use Rattle.link_state.specs.Watch.{Begins, AreAsTold, IsChange, HasSeen, encoding, told_of};
ghost use Rattle.std.specs.List.{AllByRecursion};
ghost use Rattle.link_state.specs.Watched.{all_seen, fresh, noted, IsSame};

use crate::Difference;
use crate::incoming::{Incoming, Progress};
use crate::watched::Watched;
use crate::watched_list::{first_change, judge_all, limit_of};
use startup::Reports;
use std::alloc::{AllocError, Global};
use std::marker::Model;

/// A watch over what a server reports, which is fed with all that the server sends. In contracts it
/// is a `WatchState`; `HasSeen` says which bytes it has read.
#[derive(Debug, Drop)]
pub struct Watch {
    watched: Vec<Watched>,
    incoming: Incoming,
    stopped: bool,
    // Whether some parameter was reported last with another value than clients get.
    has_change: bool,
}

impl Model for Watch {
    ghost use Rattle.link_state.specs.Watch.{WatchState};

    ghost Value = { WatchState };

    ghost use Rattle.link_state.specs.WatchInside.{state_inside, IsReady};

    ghost view = { state_inside };

    ghost invariant = { IsReady };
}

impl Watch {
    /// A watch over the parameters that logins report, and over `client_encoding`, which has to be
    /// UTF8. It takes all of its memory here.
    pub fn new(alloc: Global, reports: &Reports) -> Result<Watch, AllocError>
        ensures told { IfOk result (λ watch. told_of watch ≡ reports.now ++ encoding ∷ []) }
        ensures seen { IfOk result (λ watch. HasSeen watch []) }
    {
        let watched = watch_all(alloc, reports)?;
        let incoming = Incoming::new(alloc, limit_of(&watched))?;
        Ok(Watch {
            watched,
            incoming,
            stopped: false,
            has_change: false,
        })
    }

    /// Reads the next bytes that the server sent, cut anywhere. It takes no memory. At a length
    /// field below 4 it stops, and sees nothing of what follows.
    pub fn read(&mut self, bytes: &[u8])
        ensures seen { (before : List ℕ) → HasSeen self.old before
            → HasSeen self.new (before ++ bytes.now) }
        ensures told { told_of self.new ≡ told_of self.old }
    {
        let mut rest = bytes;
        'pieces: while !rest.is_empty() && !self.stopped {
            rest = self.read_front(rest);
        }
    }

    // Reads the message with which these bytes begin, or what belongs to the one that is coming.
    // Returns what follows. A whole message that is no ParameterStatus changes nothing.
    #[inline(always)]
    fn read_front<'a>(&mut self, bytes: &'a [u8]) -> &'a [u8]
        requires going { self.old.stopped ≡ false }
        requires some { 0 < length bytes.now }
        ensures seen { (piece : List ℕ) × (bytes.now ≡ piece ++ result.now)
            × ((before : List ℕ) → HasSeen self.old before → HasSeen self.new (before ++ piece)) }
        ensures shorter { length result.now < length bytes.now }
        ensures told { told_of self.new ≡ told_of self.old }
    {
        let other = self.incoming.other_len(bytes);
        if other > 0 {
            return bytes.split_at(other).1;
        }
        let (piece, after) = bytes.split_at(self.piece_len(bytes));
        self.read_piece(piece);
        after
    }

    // How many of these bytes belong to the message's head, or to its body.
    fn piece_len(&self, bytes: &[u8]) -> usize
        requires going { self.now.stopped ≡ false }
        requires some { 0 < length bytes.now }
        ensures some { 0 < result }
        ensures within { result ≤ length bytes.now }
        ensures part { result ≤ self.now.left }
    {
        self.incoming.left().min(bytes.len())
    }

    // Reads bytes that belong to one message.
    #[inline(never)]
    fn read_piece(&mut self, piece: &[u8])
        requires going { self.old.stopped ≡ false }
        requires part { length piece.now ≤ self.old.left }
        ensures seen { (before : List ℕ) → HasSeen self.old before
            → HasSeen self.new (before ++ piece.now) }
        ensures told { told_of self.new ≡ told_of self.old }
    {
        match self.incoming.advance(piece) {
            Progress::More => {}
            Progress::Broken => self.stopped = true,
            Progress::Whole => {
                self.has_change = judge_message(&mut self.watched, &self.incoming, self.has_change);
                self.incoming.restart();
            }
        }
    }

    /// What the server reports otherwise than clients get it, if anything.
    #[inline]
    pub fn differs(&self) -> Option<Difference<'_>>
        // There is nothing exactly where, of each parameter, the last value in the messages so far
        // is the one that clients get.
        ensures none { (bytes : List ℕ) (frames : List Frame) (rest : List ℕ)
            → HasSeen self.now bytes → Begins bytes frames rest
            → IfNone result (AreAsTold (told_of self.now) frames) }
        ensures some { (bytes : List ℕ) (frames : List Frame) (rest : List ℕ)
            → HasSeen self.now bytes → Begins bytes frames rest
            → IfSome result (IsChange (told_of self.now) frames) }
    {
        if !self.has_change {
            return None;
        }
        first_change(&self.watched)
    }
}

// Takes note of a whole message. Returns whether some parameter was reported last with another value
// than clients get.
fn judge_message(watched: &mut Vec<Watched>, message: &Incoming, had_change: bool) -> bool
    requires head { 5 ≤ length message.now.front.items }
    requires same { had_change ≡ false → AllByRecursion IsSame (all_seen watched.old.items) }
    ensures noted { all_seen watched.new.items
        ≡ noted message.now.front.items (all_seen watched.old.items) }
    ensures same { result ≡ false → AllByRecursion IsSame (all_seen watched.new.items) }
{
    let Some(body) = message.status() else {
        return had_change;
    };
    judge_all(watched, body);
    first_change(watched).is_some()
}

// All parameters that are watched.
fn watch_all(alloc: Global, reports: &Reports) -> Result<Vec<Watched>, AllocError>
    ensures { IfOk result (λ all. all_seen all.items ≡ map fresh (reports.now ++ encoding ∷ [])) }
{
    let mut all = Vec::new(alloc);
    for place in 0..reports.len() {
        watch_one(alloc, reports, place, &mut all)?;
    }
    all.push(Watched::new(alloc, "client_encoding", "UTF8")?)?;
    Ok(all)
}

// Adds the parameter at this place.
fn watch_one(
    alloc: Global,
    reports: &Reports,
    place: usize,
    all: &mut Vec<Watched>,
) -> Result<(), AllocError>
    ensures { OnOk result (all_seen all.new.items
        ≡ all_seen all.old.items ++ map fresh (option_to_list (slice_get reports.now place))) }
{
    if let Some(report) = reports.get(place) {
        all.push(Watched::new(alloc, report.name, report.value)?)?;
    }
    Ok(())
}
