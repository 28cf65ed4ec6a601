//! What a link's message means to a session, by its head and by its status.
ghost use Rattle.std.specs.Prelude.{◌≡◌, ◌↔◌, ℕ, IsTrue, codes};
ghost use Rattle.pg_frames.specs.FrameText.{is_type};
ghost use Rattle.client_state.specs.Text.{is_one_of};
ghost use Rattle.client_state.specs.LinkMessage.{link_message};
ghost use Rattle.client_state.specs.declared.link_message.LinkMessage.{LinkMessage as MessageOf};

use startup::ErrorCode;

/// What a link's message means by its type and its length field.
#[derive(Clone, Copy)]
pub enum LinkMessage {
    /// Something for the client.
    PassOn,
    /// A ReadyForQuery, whose status says the rest.
    Ready,
    /// Nothing that a session passes on.
    Refused(ErrorCode),
}

/// What the status of a ReadyForQuery says.
#[derive(Clone, Copy)]
pub enum Status {
    /// No transaction is open.
    Idle,
    /// A transaction is open, or failed.
    InTransaction,
    /// Nothing that is known.
    Unknown,
}

impl LinkMessage {
    ghost use Rattle.client_state.specs.LinkMessage.{link_message};

    /// What a message of this type and this length field means. The length field counts itself.
    #[inline(always)]
    #[tactic(auto, unfolding(crate::specs::LinkMessage::link_message))]
    pub fn of(kind: u8, length: usize) -> LinkMessage
        ensures { result ≡ link_message kind length }
    {
        match kind {
            b'T' | b'D' | b'C' | b'I' | b'E' | b'N' | b'S' => LinkMessage::PassOn,
            b'1' | b'2' | b'3' | b'n' | b's' | b't' => LinkMessage::PassOn,
            b'Z' if length == 5 => LinkMessage::Ready,
            b'G' | b'H' | b'W' => LinkMessage::Refused(ErrorCode::FeatureNotSupported),
            _ => LinkMessage::Refused(ErrorCode::ConnectionFailure),
        }
    }
}

/// Whether a session passes a message of this type on to its client, whatever its length field is.
/// RowDescription, DataRow and CommandComplete are tested first.
#[inline(always)]
#[tactic(auto, unfolding(crate::specs::LinkMessage::link_message))]
pub fn is_passed_on(kind: u8) -> bool
    ensures passed { (length : ℕ) → IsTrue result ↔ (link_message kind length ≡ MessageOf.PassOn) }
    ensures type_byte { IsTrue result → IsTrue (is_type kind) }
{
    match kind {
        b'T' | b'D' | b'C' => true,
        _ => is_other_passed_on(kind),
    }
}

// Whether it is the type of another message that is passed on.
#[inline(never)]
#[tactic(auto, unfolding(crate::specs::LinkMessage::link_message))]
fn is_other_passed_on(kind: u8) -> bool
    ensures passed { IsTrue result ↔ IsTrue (is_one_of (codes "IENS123nst") kind) }
    ensures type_byte { IsTrue result → IsTrue (is_type kind) }
{
    match kind {
        b'I' | b'E' | b'N' | b'S' => true,
        _ => matches!(kind, b'1' | b'2' | b'3' | b'n' | b's' | b't'),
    }
}

impl Status {
    ghost use Rattle.client_state.specs.LinkMessage.{status_of};

    /// What this byte says.
    pub fn of(byte: u8) -> Status
        ensures { result ≡ status_of byte }
    {
        match byte {
            b'I' => Status::Idle,
            b'T' | b'E' => Status::InTransaction,
            _ => Status::Unknown,
        }
    }
}
