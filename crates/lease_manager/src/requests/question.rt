ghost use Rattle.std.specs.Prelude.{◌≡◌, ◌&&◌, Ok};
ghost use Rattle.lease_model.specs.server.Lanes.{as_held};
ghost use Rattle.lease_manager.specs.Questions.{goes_at_once, has_its_turn, is_free, write_within};
ghost use Rattle.lease_manager.specs.Requests.{request_like};
ghost use Rattle.lease_manager.specs.Table.{server_of};
ghost use Rattle.lease_model.specs.messages.Requests.{FileRequest};
ghost use Rattle.lease_model.specs.values.Sharing.{may_read};

use crate::requests::arrival::lane_of;
use crate::tables::Tables;
use crate::values::number::{ClientNo, FileNo, Tag};
use crate::values::open::OpenEntry;
use crate::values::request::{Ask, Held};
use lease_state::FileId;

/// The tag of a request that nobody made.
const NO_TAG: Tag = Tag(0);

impl Tables {
    /// Whether a read by this FileId of the client would be done at once: the open is there, connected, and may read, and no
    /// earlier request goes first.
    pub fn reads_at_once(&self, client: ClientNo, fid: FileId) -> bool
        ensures { result ≡ goes_at_once (server_of self.now) client.0 (FileRequest.Read fid.0) }
    {
        match self.connected_open(client, fid) {
            Some(one) => self.is_read_due(client, fid, one),
            None => false,
        }
    }

    /// Whether a write by this FileId of the client, within the limit of a file, would be done at once: the open is there,
    /// connected, and may write, no lease of another key on the file holds anything that it isn't about to lose, and no earlier
    /// request goes first.
    pub fn writes_at_once(&self, client: ClientNo, fid: FileId) -> bool
        ensures { result ≡ goes_at_once (server_of self.now) client.0 (write_within fid.0) }
    {
        match self.connected_open(client, fid) {
            Some(one) => self.is_write_due(client, fid, one),
            None => false,
        }
    }

    // Whether the open may read, and a read by it waits behind none.
    fn is_read_due(&self, client: ClientNo, fid: FileId, one: &OpenEntry) -> bool
        ensures { result ≡ (may_read one.now.access && has_its_turn (server_of self.now)
            (as_held (server_of self.now) client.0 (FileRequest.Read fid.0)) (Ok one.now.file)) }
    {
        one.access.reads() && self.has_turn(client, Ask::Read { fid }, one.file)
    }

    // Whether the open may write, nothing hinders a write by it, and it waits behind none.
    fn is_write_due(&self, client: ClientNo, fid: FileId, one: &OpenEntry) -> bool
        ensures { result ≡ (is_free (server_of self.now) one.now && has_its_turn (server_of self.now)
            (as_held (server_of self.now) client.0 (write_within fid.0)) (Ok one.now.file)) }
    {
        self.is_unhindered(one) && self.has_turn(client, Ask::Write { fid, fits: true }, one.file)
    }

    // Whether the open may write, and nothing hinders a write by it.
    fn is_unhindered(&self, one: &OpenEntry) -> bool
        ensures { result ≡ is_free (server_of self.now) one.now }
    {
        one.access.writes() && !self.is_hindered(one.key(), one.file)
    }

    // Whether the request about the file waits behind none there.
    fn has_turn(&self, client: ClientNo, ask: Ask, file: FileNo) -> bool
        ensures { result ≡ has_its_turn (server_of self.now) (as_held (server_of self.now) client.0 (request_like ask)) (Ok file.0) }
    {
        let one = Held {
            client,
            ask,
            lane: lane_of(self, client, ask),
            tag: NO_TAG,
        };
        !one.is_behind(self.rules(), self.held(file))
    }
}
