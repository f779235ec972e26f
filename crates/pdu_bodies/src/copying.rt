//! The bodies of requests once more.

ghost use Rattle.std.specs.Prelude.{◌≡◌, IfOk};

use crate::pdu::{Cancel, Message, Query};
use std::alloc::AllocError;

impl Message {
    /// The same once more. An `Err` is want of memory.
    pub fn copy(&self) -> Result<Message, AllocError>
        ensures { IfOk result (λ copy. copy ≡ self.now) }
    {
        Ok(Message {
            service_type: self.service_type.copy()?,
            source: self.source.copy()?,
            destination: self.destination.copy()?,
            esm_class: self.esm_class,
            protocol_id: self.protocol_id,
            priority_flag: self.priority_flag,
            schedule_delivery_time: self.schedule_delivery_time.copy()?,
            validity_period: self.validity_period.copy()?,
            registered_delivery: self.registered_delivery,
            replace_if_present_flag: self.replace_if_present_flag,
            data_coding: self.data_coding,
            sm_default_msg_id: self.sm_default_msg_id,
            short_message: self.short_message.copy()?,
            tlvs: self.tlvs.copy()?,
        })
    }
}

impl Query {
    /// The same once more. An `Err` is want of memory.
    pub fn copy(&self) -> Result<Query, AllocError>
        ensures { IfOk result (λ copy. copy ≡ self.now) }
    {
        let (message_id, source) = (self.message_id.copy()?, self.source.copy()?);
        Ok(Query { message_id, source })
    }
}

impl Cancel {
    /// The same once more. An `Err` is want of memory.
    pub fn copy(&self) -> Result<Cancel, AllocError>
        ensures { IfOk result (λ copy. copy ≡ self.now) }
    {
        let (service_type, message_id) = (self.service_type.copy()?, self.message_id.copy()?);
        let (source, destination) = (self.source.copy()?, self.destination.copy()?);
        Ok(Cancel {
            service_type,
            message_id,
            source,
            destination,
        })
    }
}
