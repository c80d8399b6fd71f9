//! A service over a link that answers requests for the rows of an archive. Nothing in this crate takes memory.
#![tactic(auto)]

mod answer;
mod link_sink;
mod reply;
mod request;
mod service;

pub use request::{Request, request_of};
pub use service::{Queries, QueryEnd, answer_queries};
