//! The nodes of a server, as its threads share them through all parts of its journal: what stands at each, what wakes its threads, and how far all are.
#![tactic(auto)]

mod beat;
mod bell;
mod carriage;
mod course;
mod doors;
mod ending;
mod frames;
mod gauge;
mod house;
mod opening;
mod pace;
mod rounds;
mod settings;
mod site;
mod station;
mod stop;

pub use beat::Beat;
pub use course::{Course, Need};
pub use doors::{Doors, StatusDoor};
pub use ending::{End, Ending};
pub use frames::Frames;
pub use gauge::Gauge;
pub use house::{Counters, House};
pub use opening::house_of;
pub use pace::Pace;
pub use settings::Settings;
pub use site::Site;
pub use station::{Station, Wake};
pub use stop::Stop;
