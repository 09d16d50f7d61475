ghost use Rattle.std.specs.Prelude.{◌≡◌};

use lease_state::{ClientNo, FileNo};

/// The client's number, as the manager has it.
pub fn client_no(client: ClientNo) -> lease_manager::ClientNo
    ensures { result.0 ≡ client.0 }
{
    lease_manager::ClientNo(u64::from(client.0))
}

/// The file's number, as the manager has it.
pub fn file_no(file: FileNo) -> lease_manager::FileNo
    ensures { result.0 ≡ file.0 }
{
    lease_manager::FileNo(u64::from(file.0))
}
