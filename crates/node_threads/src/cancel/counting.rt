//! A seat at a node's board, with the board.
ghost use Rattle.std.specs.Prelude.{◌≡◌, IfOk};
ghost use Rattle.std.specs.Arc.{arc_value};
ghost use Rattle.stat_board.specs.Places.{place_of};
ghost use Rattle.stat_board.specs.Seats.{Splits};
ghost use Rattle.node_threads.specs.Cancelling.{Tries};
ghost use Rattle.node_threads.specs.Words.{ReadsAll, counters};

use stat_board::{Board, BoardSeat, Counter};
use std::alloc::{AllocError, Global};
use std::sync::Arc;

/// A seat at a node's board, with the board. What is counted there is counted at that board.
#[derive(Drop)]
pub struct Counting {
    pub(crate) board: Arc<Board, Global>,
    pub(crate) seat: BoardSeat,
    ghost own: { seat.board ≡ arc_value board },
}

impl Counting {
    /// The first seat at a new board.
    pub fn new(alloc: Global) -> Result<Counting, AllocError> {
        let (board, seat) = Board::new(alloc)?;
        let board = Arc::new(alloc, board)?;
        Ok(Counting { board, seat })
    }

    /// Hands half of what it may count to a new seat at the same board.
    pub fn split(&mut self) -> Result<Counting, AllocError>
        ensures { IfOk result (λ part. Splits self.old.seat self.new.seat part.seat) }
    {
        let board = Arc::try_clone(&self.board)?;
        let seat = self.seat.split(&board);
        Ok(Counting { board, seat })
    }

    // Counts one more, if the seat may.
    pub(crate) fn count(&mut self, counter: Counter)
        ensures counted { Tries self.old.seat (place_of counter) self.new.seat }
        ensures board { self.new.seat.board ≡ self.old.seat.board }
    {
        let _ = self.seat.count(&self.board, counter);
    }

    /// The words of the board, in the order of its counters.
    pub fn words(&mut self) -> [u64; 8]
        ensures read { ReadsAll counters self.old.seat result self.new.seat }
        ensures board { self.new.seat.board ≡ self.old.seat.board }
    {
        let spent = self.seat.read(&self.board, Counter::Spent);
        let unknown = self.seat.read(&self.board, Counter::Unknown);
        let no_peer = self.seat.read(&self.board, Counter::NoPeer);
        let no_link = self.seat.read(&self.board, Counter::NoLink);
        let forwarded = self.seat.read(&self.board, Counter::Forwarded);
        let sent = self.seat.read(&self.board, Counter::Sent);
        let ended = self.seat.read(&self.board, Counter::Ended);
        let failed = self.seat.read(&self.board, Counter::Failed);
        [
            spent, unknown, no_peer, no_link, forwarded, sent, ended, failed,
        ]
    }
}
