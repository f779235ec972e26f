ghost use Rattle.std.specs.Prelude.{◌≡◌, IfSome, Some};
ghost use Rattle.pdu_tables.specs.StatusCodes.{status_code, status_of};

use crate::codes::{code_of, one_of};

/// A command_status that the centre gives or understands (SMPP 3.4, section 5.1.3).
#[derive(Clone, Copy, Debug, PartialEq, Eq)]
pub enum Status {
    /// `ESME_ROK`, 0x0000_0000.
    Ok,
    /// `ESME_RINVMSGLEN`, 0x0000_0001.
    InvalidMessageLength,
    /// `ESME_RINVCMDLEN`, 0x0000_0002.
    InvalidCommandLength,
    /// `ESME_RINVCMDID`, 0x0000_0003.
    InvalidCommandId,
    /// `ESME_RINVBNDSTS`, 0x0000_0004.
    InvalidBindStatus,
    /// `ESME_RALYBND`, 0x0000_0005.
    AlreadyBound,
    /// `ESME_RINVREGDLVFLG`, 0x0000_0007.
    InvalidRegisteredDelivery,
    /// `ESME_RSYSERR`, 0x0000_0008.
    SystemError,
    /// `ESME_RINVSRCADR`, 0x0000_000a.
    InvalidSourceAddress,
    /// `ESME_RINVDSTADR`, 0x0000_000b.
    InvalidDestinationAddress,
    /// `ESME_RINVMSGID`, 0x0000_000c.
    InvalidMessageId,
    /// `ESME_RBINDFAIL`, 0x0000_000d.
    BindFailed,
    /// `ESME_RINVPASWD`, 0x0000_000e.
    InvalidPassword,
    /// `ESME_RINVSYSID`, 0x0000_000f.
    InvalidSystemId,
    /// `ESME_RCANCELFAIL`, 0x0000_0011.
    CancelFailed,
    /// `ESME_RMSGQFUL`, 0x0000_0014.
    MessageQueueFull,
    /// `ESME_RINVSERTYP`, 0x0000_0015.
    InvalidServiceType,
    /// `ESME_RINVSYSTYP`, 0x0000_0053.
    InvalidSystemType,
    /// `ESME_RTHROTTLED`, 0x0000_0058.
    Throttled,
    /// `ESME_RINVSCHED`, 0x0000_0061.
    InvalidSchedule,
    /// `ESME_RINVEXPIRY`, 0x0000_0062.
    InvalidExpiry,
    /// `ESME_RX_T_APPN`, 0x0000_0064.
    TemporaryApplicationError,
    /// `ESME_RX_P_APPN`, 0x0000_0065.
    PermanentApplicationError,
    /// `ESME_RX_R_APPN`, 0x0000_0066.
    RejectedByApplication,
    /// `ESME_RQUERYFAIL`, 0x0000_0067.
    QueryFailed,
    /// `ESME_RINVOPTPARSTREAM`, 0x0000_00c0.
    InvalidOptionalParameters,
}

/// The numbers of command_status.
macro_rules! statuses {
    ($way:ident, $what:expr) => {
        $way!($what;
            Status::Ok = 0x0000_0000,
            Status::InvalidMessageLength = 0x0000_0001,
            Status::InvalidCommandLength = 0x0000_0002,
            Status::InvalidCommandId = 0x0000_0003,
            Status::InvalidBindStatus = 0x0000_0004,
            Status::AlreadyBound = 0x0000_0005,
            Status::InvalidRegisteredDelivery = 0x0000_0007,
            Status::SystemError = 0x0000_0008,
            Status::InvalidSourceAddress = 0x0000_000a,
            Status::InvalidDestinationAddress = 0x0000_000b,
            Status::InvalidMessageId = 0x0000_000c,
            Status::BindFailed = 0x0000_000d,
            Status::InvalidPassword = 0x0000_000e,
            Status::InvalidSystemId = 0x0000_000f,
            Status::CancelFailed = 0x0000_0011,
            Status::MessageQueueFull = 0x0000_0014,
            Status::InvalidServiceType = 0x0000_0015,
            Status::InvalidSystemType = 0x0000_0053,
            Status::Throttled = 0x0000_0058,
            Status::InvalidSchedule = 0x0000_0061,
            Status::InvalidExpiry = 0x0000_0062,
            Status::TemporaryApplicationError = 0x0000_0064,
            Status::PermanentApplicationError = 0x0000_0065,
            Status::RejectedByApplication = 0x0000_0066,
            Status::QueryFailed = 0x0000_0067,
            Status::InvalidOptionalParameters = 0x0000_00c0)
    };
}

impl Status {
    ghost use Rattle.pdu_tables.specs.declared.status.Status.{Status};

    /// The command_status that stands for it.
    pub fn code(self) -> u32
        ensures { result ≡ status_code self }
    {
        statuses!(code_of, self)
    }

    /// What a command_status stands for; none if it is not in the table.
    pub fn of_code(code: u32) -> Option<Status>
        ensures table { result ≡ status_of code }
        ensures known { IfSome result (λ status. status_code status ≡ code) }
        ensures only { (status : Status) → status_code status ≡ code → result ≡ Some status }
    {
        statuses!(one_of, code)
    }
}
