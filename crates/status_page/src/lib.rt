//! What a server tells of itself over HTTP: its counts as metrics, as JSON and as a page, and whether it serves.
#![tactic(auto)]

mod answering;
mod count;
mod json;
mod metrics;
mod node_count;
mod page;
mod putting;
mod status;
mod wanted;

pub use answering::{Answers, LIMITS};
pub use count::{COUNTS, Count};
pub use http_server::Connection;
pub use json::json_text;
pub use metrics::metrics_text;
pub use node_count::{NODE_COUNTS, NodeCount};
pub use page::page_text;
pub use status::{NodeStatus, Status};
pub use wanted::Wanted;
