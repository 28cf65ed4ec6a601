//! Messages after start-up: their text, and the cutting of a stream into them, in whatever pieces
//! it comes.
#![tactic(auto)]

mod body;
mod buffer;
mod cutter;
mod error;
mod flow;
mod frame;
mod header;
mod limit;
mod parts;
mod piece;
mod put;
mod scan;
mod store;
mod stream;

pub use body::Body;
pub use cutter::Cutter;
pub use error::FrameError;
pub use flow::{Flow, whole_head, whole_head_of};
pub use frame::Frame;
pub use header::Header;
pub use limit::{MAX_MESSAGE, MessageLimit};
pub use parts::{OwnedPiece, Parts, cut_in_parts, cut_in_parts_within};
pub use piece::Piece;
pub use put::{put_frame, put_frame_within};
pub use stream::{Cutting, cut, cut_within};
