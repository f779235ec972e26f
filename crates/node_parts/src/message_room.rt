//! Room that was taken for messages.

use crate::list_room::ListRoom;
use crate::message::Message;
use shelf::Room;

/// Room for messages on their shelf, and for them on the lists of those that are live and of those that are awake. Nothing lies there yet.
#[derive(Drop)]
pub struct MessageRoom {
    pub(crate) shelf: Room<Message>,
    pub(crate) live: ListRoom,
}
