/// What an ESME binds as (SMPP 3.4, sections 2.2 and 4.1).
#[derive(Clone, Copy, Debug, PartialEq, Eq)]
pub enum Role {
    /// bind_transmitter: it submits.
    Transmitter,
    /// bind_receiver: it is delivered to.
    Receiver,
    /// bind_transceiver: both.
    Transceiver,
}
