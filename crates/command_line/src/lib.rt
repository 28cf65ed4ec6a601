//! What the program's arguments ask for, and the texts of help and of faults in them.
#![tactic(auto)]

mod arguments;
mod command_arguments;
mod command_name;
mod commands;
mod decide_request;
mod decide_texts;
mod list;
mod live_client;
mod log_level;
mod option_name;
mod peers;
mod port;
mod reports;
mod request;
mod run_options;
mod run_texts;
mod running;
mod seed;
mod serve_request;
mod serve_texts;
mod stub_request;
mod stub_texts;
mod texts;
mod wrong;

pub use command_name::CommandName;
pub use decide_request::DecideRequest;
pub use live_client::LiveClient;
pub use log_level::LogLevel;
pub use request::Request;
pub use running::Running;
pub use seed::{SeedSource, counted_bytes, seed_held};
pub use serve_request::ServeRequest;
pub use stub_request::{StubMode, StubRequest};
pub use texts::{help, help_on_help, longer_packet, usage, version};
pub use wrong::{Place, Wrong};
