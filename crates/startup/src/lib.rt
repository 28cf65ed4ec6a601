//! How a connection begins: its first packets, read and written, and the login and the errors that
//! answer them.
#![tactic(auto)]

mod append;
mod error_code;
mod fields;
mod first;
mod header;
mod names;
mod opening;
mod packet;
mod packets;
mod parameter;
mod replies;
mod report;
mod report_error;
mod reports;
mod request;
mod session;
mod startup_error;
mod wanted;

pub use error_code::{ErrorCode, Severity};
pub use fields::error_field;
pub use first::First;
pub use opening::Opening;
pub use packet::Packet;
pub use replies::{write_error, write_login};
pub use report::Report;
pub use report_error::ReportError;
pub use reports::Reports;
pub use request::{write_cancel, write_startup};
pub use startup_error::StartupError;
pub use wanted::{Wanted, cancel_key};
