//! Streams in memory, which give what their story says, and show what they are given.
use crate::name::{Name, Who};
use crate::stage::Stage;
use crate::story::Trait;
use crate::sum::Sum;
use peer_forward::{Arrival, Asks, Requester};
use startup::StartupError;
use std::alloc::{AllocError, Global};
use std::io;
use std::io::{ErrorKind, Read, Write};
use std::sync::Arc;

// A side of a connection.
pub(crate) struct Line {
    pub(crate) name: Name,
    // For whose connection it was made.
    owner: Who,
    // Which of its turns is next, and how many bytes of it were given.
    place: usize,
    offset: usize,
    // How many more bytes it takes.
    room: usize,
    // The first byte of what was written last.
    first: u8,
    // All that was written, if it isn't shown.
    sum: Sum,
    stage: Arc<Stage, Global>,
}

impl Line {
    pub(crate) fn new(
        stage: &Arc<Stage, Global>,
        name: Name,
        owner: Who,
    ) -> Result<Line, AllocError> {
        let room = stage.story.room(name);
        let stage = Arc::try_clone(stage)?;
        Ok(Line {
            name,
            owner,
            place: 0,
            offset: 0,
            room,
            first: 0,
            sum: Sum::new(),
            stage,
        })
    }

    // Shows the turn that begins.
    fn show(&self) {
        if self.offset > 0 {
            return;
        }
        match self.stage.story.turn(self.name, self.place) {
            Some(turn) => self.stage.say_given(self.name, turn.text.as_str()),
            None => self.stage.say_given(self.name, "ends"),
        }
    }

    // Gives what is next. Returns how many bytes, and whether its turn is over.
    fn copy(&self, buffer: &mut [u8]) -> io::Result<(usize, bool)> {
        if let Some(bytes) = self.stage.answer(self.name, self.first) {
            return Ok(copy_part(bytes, self.offset, usize::MAX, buffer));
        }
        let Some(turn) = self.stage.story.turn(self.name, self.place) else {
            return Ok((0, false));
        };
        if turn.breaks {
            return Err(io::Error::from(ErrorKind::ConnectionReset));
        }
        let most = self.stage.story.piece(self.name);
        Ok(copy_part(turn.bytes.as_slice(), self.offset, most, buffer))
    }

    fn go_on(&mut self, copied: io::Result<(usize, bool)>) -> io::Result<usize> {
        match copied {
            Ok((count, false)) => {
                self.offset = self.offset.saturating_add(count);
                Ok(count)
            }
            Ok((count, true)) => {
                self.end_turn();
                Ok(count)
            }
            Err(error) => {
                self.end_turn();
                Err(error)
            }
        }
    }

    fn end_turn(&mut self) {
        self.place = self.place.saturating_add(1);
        self.offset = 0;
    }

    fn is_summed(&self) -> bool {
        self.stage.story.is(self.name, Trait::Summed)
    }

    // Shows what was written, or adds it to the sum.
    fn note(&mut self, bytes: &[u8]) {
        if self.is_summed() {
            self.sum.add(bytes);
        } else {
            self.stage.say_taken(self.name, bytes);
        }
    }

    // Takes bytes, as far as there is room for them.
    fn take(&mut self, bytes: &[u8]) -> io::Result<usize> {
        let count = self.room.min(bytes.len());
        let Some(first) = bytes.split_at(count).0.first() else {
            self.stage.say_of(self.name, "<- nothing more");
            return Err(io::Error::from(ErrorKind::BrokenPipe));
        };
        self.first = *first;
        self.room = self.room.saturating_sub(count);
        self.note(bytes.split_at(count).0);
        match self.stage.call(self.owner) {
            Some(fault) => fault.outcome(),
            None => Ok(count),
        }
    }
}

// Copies what stands behind the offset, at most this many bytes. Returns how many, and whether they
// are the last.
fn copy_part(bytes: &[u8], offset: usize, most: usize, buffer: &mut [u8]) -> (usize, bool) {
    let rest = bytes.split_at(offset.min(bytes.len())).1;
    let count = rest.len().min(buffer.len()).min(most);
    buffer
        .split_at_mut(count)
        .0
        .copy_from_slice(rest.split_at(count).0);
    (count, count == rest.len())
}

impl Drop for Line {
    fn drop(self) {
        if self.is_summed() {
            self.stage.say_sum(self.name, &self.sum);
        }
        match self.stage.story.turn(self.name, self.place) {
            Some(turn) => self.stage.say_unread(self.name, turn.text.as_str()),
            None => self.stage.say_of(self.name, "closed"),
        }
        let Line {
            name: _,
            owner: _,
            place: _,
            offset: _,
            room: _,
            first: _,
            sum: _,
            stage: _,
        } = self;
    }
}

impl Requester for Line {
    ghost use Rattle.std.specs.Prelude.{⊤};

    ghost saw = { λ _ _ _ _. ⊤ };

    ghost takes = { λ _ _. ⊤ };

    ghost resets = { λ _ _. ⊤ };

    fn peek_once(&mut self, buffer: &mut [u8]) -> io::Result<usize> {
        self.show();
        let seen = match self.stage.call(self.owner) {
            Some(fault) => fault.outcome(),
            None => match self.copy(buffer) {
                Ok((count, _is_last)) => Ok(count),
                Err(error) => self.go_on(Err(error)),
            },
        };
        match seen {
            Ok(count) => Ok(count.min(buffer.len())),
            Err(error) => Err(error),
        }
    }

    fn take_seen(&mut self) {
        let copied = self.copy(&mut [0]);
        let _ = self.go_on(copied);
    }

    fn give_up(&mut self) {
        self.stage.say_of(self.name, "is given up");
    }
}

impl Arrival for Line {
    ghost use Rattle.std.specs.Prelude.{⊤};

    ghost admitted = { λ _ _ _ _. ⊤ };

    ghost refused = { λ _ _ _ _. ⊤ };

    fn admits(&mut self, _asks: Asks) -> bool {
        true
    }

    fn refuse(&mut self, _error: StartupError) -> bool {
        true
    }
}

impl Read for Line {
    fn read(&mut self, buffer: &mut [u8]) -> io::Result<usize> {
        self.show();
        let given = match self.stage.call(self.owner) {
            Some(fault) => fault.outcome(),
            None => {
                let copied = self.copy(buffer);
                self.go_on(copied)
            }
        };
        match given {
            Ok(count) => Ok(count.min(buffer.len())),
            Err(error) => Err(error),
        }
    }
}

impl Write for Line {
    fn write(&mut self, bytes: &[u8]) -> io::Result<usize> {
        match self.take(bytes) {
            Ok(count) => Ok(count.min(bytes.len())),
            Err(error) => Err(error),
        }
    }

    fn flush(&mut self) -> io::Result<()> {
        Ok(())
    }
}
