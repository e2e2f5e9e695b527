//! Tables of the queries of boxes: which tuples they have at each packet, and which packets have a tuple at which
//! queries.
#![tactic(auto)]

pub mod masks;
mod search;
mod sites;
mod spots;
mod table;
mod tables;

pub use sites::{Site, SiteNumbers};
pub use tables::QueryTables;
