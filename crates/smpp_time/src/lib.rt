//! Times as SMPP 3.4 writes them, and the moments that they name.
#![tactic(auto)]

mod calendar;
mod fault;
mod laws;
mod reading;
mod writing;

pub use fault::TimeFault;
pub use laws::{
    a_day_has_one_date, moments_are_their_texts, times_fit_their_field, what_is_written_is_read,
};
pub use reading::read_time;
pub use writing::{receipt_date, write_time};
