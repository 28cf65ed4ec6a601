//! Where a cancel request goes from a pooler: on to another one, to a link, or nowhere.
#![tactic(auto)]

mod decision;
mod refusal;
mod table_view;

pub use decision::{Route, decide};
pub use refusal::RouteRefusal;
pub use table_view::{Standing, TableView};
