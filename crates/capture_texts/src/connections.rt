ghost use Rattle.std.specs.Prelude.{◌≡◌, ◌≢◌, ◌++◌, ◌≤◌, ◌<◌, ◌^◌, [], Some, None, ℕ, OnOk, IfOk};
ghost use Rattle.std.specs.BTreeMap.{btree_map_len};
ghost use Rattle.capture_texts.specs.Positions.{earliest_by, near_by, near_after, far_by, far_after, last_position};
ghost use Rattle.capture_texts.specs.Connections.{connection_in, ends_in, near_in, far_in, ends_by, first_ends, differs_from};
ghost use Rattle.capture_texts.specs.Connections.{server_in, client_in};
ghost use Rattle.capture_texts.specs.declared.line.Said.TheVariants as said;

use crate::line::{FrameSaid, Side};
use lease_state::{Bytes, Memory};
use std::alloc::Global;
use std::collections::BTreeMap;

// A connection of which a frame came.
#[derive(Debug, Drop)]
pub(crate) struct Connection {
    // Its addresses.
    client: Bytes,
    server: Bytes,
    // The positions of the frames that the side at which the capture is made sent.
    near: Vec<u64>,
    // The first position at which the other side can have sent its last frame.
    far: u64,
}

/// Where a frame is.
#[derive(Clone, Copy, Debug)]
pub(crate) struct Spot {
    /// The side at which the capture is made.
    pub(crate) at: Side,
    /// The number of the frame's line.
    pub(crate) line: u64,
    /// The first position at which it can have been sent.
    pub(crate) earliest: u64,
}

// The position of the last of so many frames.
fn last_position(count: u64, positions: &[u64]) -> u64
    ensures { result ≡ last_position count positions.now }
{
    if count == 0 {
        return 0;
    }
    match positions.get(count as usize - 1) {
        Some(position) => *position,
        None => 0,
    }
}

impl Connection {
    fn new(alloc: Global, frame: &FrameSaid) -> Result<Connection, Memory>
        ensures client { IfOk result (λ one. one.client ≡ frame.now.client) }
        ensures server { IfOk result (λ one. one.server ≡ frame.now.server) }
        ensures near { IfOk result (λ one. one.near.items ≡ []) }
        ensures far { IfOk result (λ one. one.far ≡ 0) }
    {
        Ok(Connection {
            client: frame.client.try_copy()?,
            server: frame.server.try_copy()?,
            near: Vec::new(alloc),
            far: 0,
        })
    }

    fn note(&mut self, spot: Spot, from: Side) -> Result<(), Memory>
        requires first { 1 ≤ spot.line }
        requires fits { spot.line < 2 ^ 63 }
        ensures client { OnOk result (self.new.client ≡ self.old.client) }
        ensures server { OnOk result (self.new.server ≡ self.old.server) }
        ensures near { OnOk result (self.new.near.items ≡ near_after spot.at spot.line from self.old.near.items) }
        ensures far { OnOk result (self.new.far ≡ far_after spot.at from spot.earliest self.old.far) }
    {
        if from.is_near(spot.at) {
            self.near.push(from.position(spot.line))?;
        } else {
            self.far = spot.earliest;
        }
        Ok(())
    }
}

/// The connections of which frames came, by their numbers.
#[derive(Debug, Drop)]
pub(crate) struct Connections {
    by_number: BTreeMap<u64, Connection>,
}

impl Connections {
    /// None. Allocates nothing.
    pub(crate) fn new(alloc: Global) -> Connections
        ensures { (number : ℕ) → connection_in result number ≡ None }
    {
        Connections {
            by_number: BTreeMap::new(alloc),
        }
    }

    /// How many there are.
    pub(crate) fn len(&self) -> usize
        ensures { result ≡ btree_map_len self.now.by_number }
    {
        self.by_number.len()
    }

    /// Whether a frame has other addresses than its connection.
    pub(crate) fn differs(&self, number: u64, frame: &FrameSaid) -> bool
        ensures { result ≡ differs_from (ends_in (connection_in self.now number)) frame.now }
    {
        match self.by_number.get(&number) {
            Some(one) => {
                !(one.client.as_slice() == frame.client.as_slice()
                    && one.server.as_slice() == frame.server.as_slice())
            }
            None => false,
        }
    }

    /// The first position at which a frame can have been sent, by the side at which the capture is made and the number of the
    /// frame's line.
    pub(crate) fn earliest(&self, at: Side, line: u64, number: u64, frame: &FrameSaid) -> u64
        requires first { 1 ≤ line }
        requires fits { line < 2 ^ 63 }
        ensures { result ≡ earliest_by at line frame.now (near_in (connection_in self.now number)) }
    {
        if frame.from.is_near(at) {
            return frame.from.position(line);
        }
        match self.by_number.get(&number) {
            Some(one) => last_position(frame.acknowledged, &one.near),
            None => last_position(frame.acknowledged, &[]),
        }
    }

    /// The first position at which the side where the capture isn't made can have sent its last frame on a connection.
    pub(crate) fn far(&self, number: u64) -> u64
        ensures { result ≡ far_in (connection_in self.now number) }
    {
        match self.by_number.get(&number) {
            Some(one) => one.far,
            None => 0,
        }
    }

    /// The address of a connection's client; no byte where it isn't known.
    pub(crate) fn client(&self, number: u64) -> &[u8]
        ensures { result.now ≡ client_in (ends_in (connection_in self.now number)) }
    {
        match self.by_number.get(&number) {
            Some(one) => one.client.as_slice(),
            None => &[],
        }
    }

    /// The same of its server.
    pub(crate) fn server(&self, number: u64) -> &[u8]
        ensures { result.now ≡ server_in (ends_in (connection_in self.now number)) }
    {
        match self.by_number.get(&number) {
            Some(one) => one.server.as_slice(),
            None => &[],
        }
    }

    // The connection, which is out of the table then.
    fn take_out(
        &mut self,
        alloc: Global,
        number: u64,
        frame: &FrameSaid,
    ) -> Result<Connection, Memory>
        ensures ends { IfOk result (λ one. ends_in (Some one)
            ≡ first_ends frame.now (ends_in (connection_in self.old number))) }
        ensures near { IfOk result (λ one. one.near.items ≡ near_in (connection_in self.old number)) }
        ensures far { IfOk result (λ one. one.far ≡ far_in (connection_in self.old number)) }
        ensures others { (other : ℕ) → other ≢ number → connection_in self.new other ≡ connection_in self.old other }
    {
        match self.by_number.remove(&number) {
            Some(one) => Ok(one),
            None => Connection::new(alloc, frame),
        }
    }

    /// Takes note of a frame.
    pub(crate) fn note(
        &mut self,
        alloc: Global,
        number: u64,
        spot: Spot,
        frame: &FrameSaid,
    ) -> Result<(), Memory>
        requires first { 1 ≤ spot.line }
        requires fits { spot.line < 2 ^ 63 }
        ensures ends { OnOk result ((other : ℕ) → ends_in (connection_in self.new other)
            ≡ ends_by other number (said.Frame frame.now) (ends_in (connection_in self.old other))) }
        ensures near { OnOk result ((other : ℕ) → near_in (connection_in self.new other)
            ≡ near_by spot.at other spot.line number (said.Frame frame.now) (near_in (connection_in self.old other))) }
        ensures far { OnOk result ((other : ℕ) → far_in (connection_in self.new other)
            ≡ far_by spot.at other number (said.Frame frame.now) spot.earliest (far_in (connection_in self.old other))) }
    {
        let mut one = self.take_out(alloc, number, frame)?;
        one.note(spot, frame.from)?;
        self.by_number.insert(number, one)?;
        Ok(())
    }
}
