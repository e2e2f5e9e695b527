//! The network that the items of a text spell, and the code for its handlers and queries.
#![tactic(auto)]

mod guards;
mod handlers;
mod kinds;
mod known;
mod laws;
mod names;
mod numbered;
mod queries;
mod terms;

pub use handlers::{bodies_of, handlers_of};
pub use kinds::Kinds;
pub use known::Tables;
pub use laws::{
    class_of_nested, net_of_marked, net_of_office, net_of_once, net_of_wire,
    statements_are_numbered,
};
pub use names::{kind_named, kind_number, number_of, value_in, values_named};
pub use numbered::Numbered;
pub use queries::{more_queries, queries_of};
