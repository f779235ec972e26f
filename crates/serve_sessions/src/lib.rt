//! The connections of a server with its ESMEs: where they are let in, what is read and written on each, who waits for it, and what an operator is told of it.
#![tactic(auto)]

mod arrival;
mod berth;
mod clock;
mod connection;
mod entrance;
mod gate;
mod inbox;
mod lines;
mod log;
mod notice;
mod reading;
mod signal;
mod staffed_place;

pub use arrival::Arrival;
pub use berth::Berth;
pub use clock::{Mark, milliseconds, milliseconds_since, now};
pub use connection::{Connection, WORKERS, Wire};
pub use entrance::Entrance;
pub use gate::BerthGate;
pub use inbox::Next;
pub use log::{Log, Stamp, stamp_now};
pub use notice::{Name, Notice, Reason, VisibleText, Whom, is_bind};
pub use reading::read_all;
pub use signal::Signal;
