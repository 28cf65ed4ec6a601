//! What a server's message means by its head.
ghost use Rattle.std.specs.Prelude.{◌≡◌};
ghost use Rattle.link_state.specs.Message.{head_of};

use crate::LinkError;
use crate::part::Part;

/// What a message means by its type and its length field.
#[derive(Clone, Copy)]
pub enum Head {
    /// Nothing that the login waits for.
    Skipped,
    /// The login fails.
    Fault(LinkError),
    /// A ReadyForQuery without one status byte.
    OtherReady,
    /// What this part of the body says.
    Body(Part),
}

impl Head {
    /// What a message of this type and this length field means. The length field counts itself.
    #[tactic(auto, unfolding(crate::specs::Message::head_of))]
    pub fn of(kind: u8, length: usize) -> Head
        ensures { result ≡ head_of kind length }
    {
        match kind {
            b'R' if length >= 8 => Head::Body(Part::Number),
            b'S' | b'N' => Head::Skipped,
            b'K' if length == 12 => Head::Body(Part::Key),
            b'Z' if length == 5 => Head::Body(Part::Status),
            b'Z' => Head::OtherReady,
            b'E' => Head::Fault(LinkError::ServerError),
            _ => Head::Fault(LinkError::OutOfProfile),
        }
    }
}
