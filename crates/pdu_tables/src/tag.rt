ghost use Rattle.std.specs.Prelude.{◌≡◌, IfSome, Some};
ghost use Rattle.pdu_tables.specs.TagCodes.{tag_code, tag_of};

use crate::codes::{code_of, one_of};

/// The tag of an optional parameter that the centre gives or understands (SMPP 3.4, section 5.3.2).
#[derive(Clone, Copy, Debug, PartialEq, Eq)]
pub enum Tag {
    /// `receipted_message_id`, 0x001e.
    ReceiptedMessageId,
    /// `user_message_reference`, 0x0204.
    UserMessageReference,
    /// `sar_msg_ref_num`, 0x020c.
    SarMsgRefNum,
    /// `sar_total_segments`, 0x020e.
    SarTotalSegments,
    /// `sar_segment_seqnum`, 0x020f.
    SarSegmentSeqnum,
    /// `sc_interface_version`, 0x0210.
    ScInterfaceVersion,
    /// `message_payload`, 0x0424.
    MessagePayload,
    /// `message_state`, 0x0427.
    MessageState,
}

/// The tags.
macro_rules! tags {
    ($way:ident, $what:expr) => {
        $way!($what;
            Tag::ReceiptedMessageId = 0x001e,
            Tag::UserMessageReference = 0x0204,
            Tag::SarMsgRefNum = 0x020c,
            Tag::SarTotalSegments = 0x020e,
            Tag::SarSegmentSeqnum = 0x020f,
            Tag::ScInterfaceVersion = 0x0210,
            Tag::MessagePayload = 0x0424,
            Tag::MessageState = 0x0427)
    };
}

impl Tag {
    ghost use Rattle.pdu_tables.specs.declared.tag.Tag.{Tag};

    /// The tag that stands for it.
    pub fn code(self) -> u16
        ensures { result ≡ tag_code self }
    {
        tags!(code_of, self)
    }

    /// What a tag stands for; none if it is not in the table.
    pub fn of_code(code: u16) -> Option<Tag>
        ensures table { result ≡ tag_of code }
        ensures known { IfSome result (λ tag. tag_code tag ≡ code) }
        ensures only { (tag : Tag) → tag_code tag ≡ code → result ≡ Some tag }
    {
        tags!(one_of, code)
    }
}
