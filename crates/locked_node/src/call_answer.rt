//! The steps of a node with the names of their answers.
/// How many steps with the names of their answers there are.
pub const ANSWERS: usize = 48;

/// A step with the name of its answer.
// Each transaction gets `AcquireGot` and `ReleasedIdle`: they come first, and so their cells lie side
// by side in a tally.
#[derive(Clone, Copy, Debug, PartialEq, Eq, Hash)]
pub enum CallAnswer {
    /// A client got an idle link, or its own quarantined one.
    AcquireGot,
    /// A link was given back, free for others.
    ReleasedIdle,
    /// A client got a slot.
    Joined,
    /// No slot was free.
    JoinFull,
    /// No number was left for a pass.
    JoinExhausted,
    /// A client left.
    Left,
    /// A client stayed, since it held a link or a permit.
    LeaveHolding,
    /// A pass was stale.
    LeaveStale,
    /// No leaving was possible any more.
    LeaveExhausted,
    /// A client may open a link.
    AcquireOpen,
    /// A client has to wait for a link.
    AcquireWaiting,
    /// A client's wait for a link had been cancelled.
    AcquireCancelled,
    /// A client had a link or a permit already.
    AcquireHolding,
    /// The pass of a client that asked for a link was stale.
    AcquireStale,
    /// No number was left for a permit.
    AcquireExhausted,
    /// A link was open.
    WentUp,
    /// No number was left for a link.
    UpExhausted,
    /// The permit of an open link was stale.
    UpStale,
    /// No link could go up any more.
    UpAtEnd,
    /// The place of a link that couldn't be opened was freed.
    UpFailedFreed,
    /// The permit of a link that couldn't be opened was stale.
    UpFailedStale,
    /// No place could be freed any more.
    UpFailedExhausted,
    /// A link was given back while a cancel request for it was on its way.
    ReleasedQuarantined,
    /// A link was given back and closed, since a cancel request for it had failed.
    ReleasedClosed,
    /// A lease that was given back was stale.
    ReleaseStale,
    /// No link could be given back any more.
    ReleaseExhausted,
    /// A link was closed.
    Closed,
    /// A lease that was closed was stale.
    CloseStale,
    /// No link could be closed any more.
    CloseExhausted,
    /// A cancel request was sent to a server.
    Served,
    /// A cancel request was sent on to a peer.
    Forwarded,
    /// A cancel request was for a client that waited for a link, and waits no longer.
    Unwaited,
    /// A cancel request was refused: its hops were spent.
    CancelSpent,
    /// A cancel request was refused: nobody has its key.
    CancelUnknown,
    /// A cancel request was refused: its peer is in no list.
    CancelNoPeer,
    /// A cancel request was refused: its client holds no link.
    CancelNoLink,
    /// A cancel request was refused: too many for its link were on their way.
    CancelBusy,
    /// A cancel request was refused: no number was left.
    CancelExhausted,
    /// A cancel request ended cleanly, the last for a link that is idle now.
    EndedFreed,
    /// A cancel request ended cleanly.
    EndedCounted,
    /// The ticket of a cancel request that ended cleanly was stale.
    EndedStale,
    /// No clean end could be reported any more.
    EndedExhausted,
    /// A cancel request failed, and its link is closed once it is given back.
    FailedCondemned,
    /// A cancel request failed, and its link was closed.
    FailedClosed,
    /// The ticket of a cancel request that failed was stale.
    FailedStale,
    /// No failure could be reported any more.
    FailedExhausted,
    /// The node was started anew.
    Restarted,
    /// No number was left for an incarnation.
    RestartExhausted,
}

impl CallAnswer {
    ghost use Rattle.std.specs.Prelude.{◌≡◌, ◌<◌};
    ghost use Rattle.locked_node.specs.CallNumbers.{ANSWERS, answer_index};

    /// Its place among the answers.
    pub const fn index(self) -> usize
        ensures value { result ≡ answer_index self }
        ensures within { result < ANSWERS }
    {
        self as usize
    }
}
