//! What a session does with a message.
use pg_frames::Frame;

/// What a session does with a message.
#[derive(Debug, Drop)]
pub enum Act {
    /// These messages are the answer.
    Reply(Vec<Frame>),
    /// The query runs until it is interrupted; then `Session::on_interrupt` has the answer.
    Hold,
    /// The connection is closed.
    Close,
}
