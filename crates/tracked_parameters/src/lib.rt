//! The parameters that a pooler tracks for its clients: what each client wants, what a server
//! connection has, and the query that makes the second like the first.
#![tactic(auto)]

mod asked;
mod client_query;
#[cfg(test)]
mod client_tests;
mod client_values;
mod constant;
mod name_error;
mod names;
mod options;
mod query;
mod reported;
mod server_values;
mod setting;
mod stored;
#[cfg(test)]
mod tests;
mod value;
mod value_error;
mod values;

pub use asked::asked_for;
pub use client_values::ClientValues;
pub use name_error::NameError;
pub use names::TrackedNames;
pub use query::settings_query;
pub use reported::{Reported, login_parameters};
pub use server_values::ServerValues;
pub use setting::{Setting, read_status};
pub use value_error::ValueError;
pub use values::{Values, agrees};
