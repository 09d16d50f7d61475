use crate::client::handle::ClientHandle;
use crate::manager::handle::ManagerHandle;
use crate::server::files::FilesHandle;
use crate::server::handle::ServerHandle;
use crate::translation::handle::ClientVersionsHandle;
use crate::versions::handle::VersionsHandle;

// Whatever may go to another thread.
fn sent<T: Send>(value: T) -> T {
    value
}

/// The same handle. It is proved here that it may go to another thread.
pub fn sent_client(handle: ClientHandle) -> ClientHandle {
    sent(handle)
}

/// The same handle. It is proved here that it may go to another thread.
pub fn sent_server(handle: ServerHandle) -> ServerHandle {
    sent(handle)
}

/// The same handle. It is proved here that it may go to another thread.
pub fn sent_files(handle: FilesHandle) -> FilesHandle {
    sent(handle)
}

/// The same handle. It is proved here that it may go to another thread.
pub fn sent_manager(handle: ManagerHandle) -> ManagerHandle {
    sent(handle)
}

/// The same handle. It is proved here that it may go to another thread.
pub fn sent_versions(handle: VersionsHandle) -> VersionsHandle {
    sent(handle)
}

/// The same handle. It is proved here that it may go to another thread.
pub fn sent_client_versions(handle: ClientVersionsHandle) -> ClientVersionsHandle {
    sent(handle)
}
