//! What a client adds to its machine for leases and durable opens of version 2 (MS-SMB2, dialects 3.0 to 3.1.1). The machine
//! speaks version 1: it knows nothing of epochs and CreateGuids.
//!
//! A program that embeds a client machine passes each create that the machine asks for, each answer to one, and each notice of a
//! break through [`ClientVersions`]:
//!
//! ```
//! let mut versions = ClientVersions::new(alloc);
//! // The machine asks for a create. The guid is a new one, and None stands for the key of the parent folder's lease:
//! host.send(file, &versions.ask(&ask, None, guid))?;
//! // The create is answered; the machine takes the answer:
//! let answer = versions.answered(file_id, guid, &received)?;
//! // The server breaks a lease; what the machine isn't given isn't acknowledged:
//! if let Some(notification) = versions.noticed(&notice)? {
//!     machine.take(Reply::Break(notification.encode()))?;
//! }
//! // The server has closed an open:
//! versions.closed(file_id);
//! ```
//!
//! Messages of several connections come in any order. Of each lease the newest epoch and the newest state are known: an answer
//! that is older gives the machine that state, and a notice that is older is dropped. An answer while a break is in progress has
//! the epoch of that break and the state before it: where the epoch is newer, both are known then, so that the notice of that
//! break goes down from there and is passed on. What is known of a lease is kept when it ends, so that the next life of its key
//! begins above all that was said before, and what is late from an earlier life is older too. `client_version_laws` says what
//! holds over any messages.
#![tactic(auto)]

mod guids;
mod laws;
mod leases;
#[cfg(test)]
mod tests;
mod versions;

pub use laws::{client_version_laws, law_of_worlds};
pub use versions::ClientVersions;
