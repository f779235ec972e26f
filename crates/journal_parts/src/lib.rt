//! What stands under the locks of nodes in threads: each node with its own steps, and the journal of all.
#![tactic(auto)]

mod batch;
mod begins;
mod carried;
mod claim;
mod coming;
mod comparing;
mod copies;
mod done;
mod entry;
mod going_on;
mod journal;
mod marks;
mod member;
mod noted;
mod post;
mod ready;
mod ready_group;
mod refusal;
mod register;
mod seat;
mod silent;
mod slip;

pub use batch::Batch;
pub use begins::Begins;
pub use carried::Carried;
pub use claim::{Claim, Claims};
pub use copies::EntryCopies;
pub use done::Done;
pub use entry::{Entry, Unfinished};
pub use going_on::{Past, all_parts_are_one, closed_journals_go_on};
pub use journal::Journal;
pub use member::Member;
pub use node_entry::{MayBegin, MessageIds, Reach, Step};
pub use post::Post;
pub use ready::Ready;
pub use ready_group::ReadyGroup;
pub use refusal::Refusal;
pub use register::{MOST_ENTRIES, MOST_SEATS, Register};
pub use seat::Seat;
pub use silent::Silent;
pub use slip::Slip;
pub use synod_acceptor::Packet;
