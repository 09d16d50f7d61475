ghost use Rattle.std.specs.Prelude.{◌≡◌};
ghost use Rattle.std.specs.Option.{option_map};
ghost use Rattle.lease_manager.specs.GivingUp.{extent_of};
ghost use Rattle.machines_c.specs.handles.Codes as codes;

use lease_manager::Extent;
use lease_state::{Access, Share, Status};

/// The access that a number stands for (profile): 1 for reading, plus 2 for writing.
pub fn access_of(number: u8) -> Option<Access>
    ensures { result ≡ codes.access_of number }
{
    match number {
        1 => Some(Access::Read),
        2 => Some(Access::Write),
        3 => Some(Access::ReadWrite),
        _ => None,
    }
}

/// The share that a number stands for (ShareAccess, MS-SMB2 2.2.13): 0 for nothing, 1 for reading,
/// plus 2 for writing.
pub fn share_of(number: u8) -> Option<Share>
    ensures { result ≡ codes.share_of number }
{
    match number {
        0 => Some(Share::Nothing),
        1 => Some(Share::Read),
        2 => Some(Share::Write),
        3 => Some(Share::ReadWrite),
        _ => None,
    }
}

/// The status of a code (MS-ERREF 2.3.1). Any code that has none here is that of a request that
/// failed, `STATUS_UNSUCCESSFUL` (profile).
pub fn status_of(code: u32) -> Status
    ensures { result ≡ codes.status_of code }
{
    match code {
        0xC000_000D => Status::InvalidParameter,
        0xC000_0022 => Status::AccessDenied,
        0xC000_0034 => Status::ObjectNameNotFound,
        0xC000_0043 => Status::SharingViolation,
        0xC000_009A => Status::InsufficientResources,
        0xC000_00D0 => Status::RequestNotAccepted,
        0xC000_0128 => Status::FileClosed,
        _ => Status::Unsuccessful,
    }
}

/// What a number says that other keys are to give up (own): 1 for handles, 2 for all that they cache.
pub fn extent_of(number: u32) -> Option<Extent>
    ensures given { option_map extent_of result ≡ codes.extent_given number }
    ensures coded { result ≡ codes.extent_coded number }
{
    match number {
        1 => Some(Extent::Handles),
        2 => Some(Extent::All),
        _ => None,
    }
}
