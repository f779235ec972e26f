//! The server of a centre: its nodes listen, read and write sessions, tick, carry packets and deliver, in threads.
#![tactic(auto)]

mod asking;
mod attending;
mod carrying;
mod hearing;
mod listening;
mod living;
mod parts;
mod seat_pool;
mod serving;
mod shared;
mod shift;
mod starting;
mod ticking;
mod trouble;
mod working;

pub use mc_types::LAST_INCARNATION;
pub use node_workers::{
    Defaults, Life, Loaded, MOST_SEATS, Node, StartFault, begin_nodes, load_nodes,
};
pub use serve_nodes::{Doors, Ending, Settings, StatusDoor, Stop};
pub use serve_sessions::{Entrance, Stamp, stamp_now};
pub use serving::{Beginning, Served, serve};
