ghost use Rattle.std.specs.Prelude.{◌≡◌, ◌≤◌, length, bytes_eq, true};
ghost use Rattle.std.specs.List.{list_any, list_all};
ghost use Rattle.lease_model.specs.world.Allowed.{are_apart, is_allowed_setup, is_content};
ghost use Rattle.lease_facts.specs.Setups.{setup_of};

use lease_facts::Setup;
use lease_state::Content;
use thiserror::Error;

// The most files and the most clients of a setup.
const FILES_LIMIT: usize = 8;

const CLIENTS_LIMIT: usize = 16;

/// Whether a run accepts the setup.
pub fn is_allowed(setup: &Setup) -> bool
    ensures value { result ≡ is_allowed_setup (setup_of setup.now) }
    ensures few { result ≡ true → length setup.now.files.items ≤ 255 }
{
    do_allow(setup.files.as_slice(), setup.clients.as_slice())
}

// Whether a run accepts a setup of these files and clients.
fn do_allow(files: &[Content], clients: &[[u8; 16]]) -> bool
    ensures value { result ≡ is_allowed_setup record { files = files.now; clients = clients.now } }
    ensures few { result ≡ true → length files.now ≤ 255 }
{
    do_fit(files);
    if files.len() > FILES_LIMIT {
        return false;
    }
    if clients.len() > CLIENTS_LIMIT {
        return false;
    }
    are_apart(clients)
}

// The bytes of a content are within the limit of a file. Does nothing.
fn do_fit(files: &[Content])
    ensures { list_all is_content files.now ≡ true }
{
    for place in 0..files.len() {
        let _bytes = files[place].bytes();
    }
}

// Whether no two are equal.
fn are_apart(guids: &[[u8; 16]]) -> bool
    ensures { result ≡ are_apart guids.now }
{
    for place in 0..guids.len() {
        if has_guid(&guids[place + 1..], &guids[place]) {
            return false;
        }
    }
    true
}

fn has_guid(guids: &[[u8; 16]], guid: &[u8; 16]) -> bool
    ensures { result ≡ list_any (bytes_eq guid.now) guids.now }
{
    guids.iter().any(|other| guid == other)
}

/// Why there is no record of a run (profile).
#[derive(Clone, Copy, Debug, PartialEq, Eq, Hash, Error)]
pub enum RunFault {
    /// There are too many files or clients, or two clients have one ClientGuid.
    #[error("1 BadSetup")]
    BadSetup,
    /// There are more than 10,000 events.
    #[error("2 TooMany")]
    TooMany,
    /// There is no memory left.
    #[error("3 Memory")]
    Memory,
}
