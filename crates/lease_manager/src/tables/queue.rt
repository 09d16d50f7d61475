ghost use Rattle.std.specs.Prelude.{◌≡◌, ◌==◌, ◌≤◌, ◌<◌, ◌++◌, [], ◌∷◌, OnOk, OnErr, drop, length};
ghost use Rattle.std.specs.List.{list_any, remove};
ghost use Rattle.lease_model.specs.values.Lists.{without};
ghost use Rattle.lease_manager.specs.OneFile.{asks_with};
ghost use Rattle.lease_manager.specs.Parting.{tag_numbers};
ghost use Rattle.manager_model.specs.Handling.{is_left, is_of, is_under};

use crate::values::number::{ClientNo, Tag};
use crate::values::open::OpenEntry;
use crate::values::request::Held;
use lease_state::Memory;
use std::alloc::Global;
use std::collections::BTreeSet;
use std::marker::Model;

/// What waits on a file, in order of arrival.
// docs/DECISIONS.md: "The front of a queue".
#[derive(Debug, Drop)]
pub struct Queue {
    /// At the front those that no longer wait.
    items: Vec<Held>,
    /// How many no longer wait, which is at most half of them.
    gone: usize,
    /// The clients of those that wait, and perhaps of some that no longer do.
    clients: BTreeSet<ClientNo>,
}

impl Model for Queue {
    ghost use Rattle.std.specs.Prelude.{◌≤◌, List, drop, length};
    ghost use Rattle.lease_manager.specs.Table.{AreOf};
    ghost use Rattle.manager_model.specs.Handling.{Tagged};

    ghost Value = { List Tagged };

    ghost view = { λ queue. drop queue.gone queue.items.items };

    ghost invariant = { λ queue. (queue.gone ≤ length queue.items.items)
        × AreOf queue.clients.keys (drop queue.gone queue.items.items) };
}

impl Queue {
    /// Nothing waits. Allocates nothing.
    pub fn new(alloc: Global) -> Queue
        ensures { result ≡ [] }
    {
        Queue {
            items: Vec::new(alloc),
            gone: 0,
            clients: BTreeSet::new(alloc),
        }
    }

    /// What waits.
    pub fn as_slice(&self) -> &[Held]
        ensures { result.now ≡ self.now }
    {
        &self.items[self.gone..]
    }

    /// The request waits after the others.
    ///
    /// # Errors
    ///
    /// `Memory` where there is none left for it; nothing has changed then.
    pub fn push(&mut self, one: Held) -> Result<(), Memory>
        ensures more { OnOk result (self.new ≡ self.old ++ one ∷ []) }
        ensures refused { OnErr result (self.new ≡ self.old) }
    {
        self.clients.insert(one.client)?;
        self.items.push(one)?;
        Ok(())
    }

    /// The request at this place no longer waits.
    pub fn remove(&mut self, place: usize)
        requires { place < length self.old }
        ensures { self.new ≡ remove self.old place }
    {
        if place != 0 {
            let _one = self.items.remove(self.gone + place);
            return;
        }
        self.gone += 1;
        if self.gone > self.items.len() - self.gone {
            let_go(&mut self.items, self.gone);
            self.gone = 0;
        }
    }

    /// Whether a request of the client waits.
    pub fn has_of(&self, client: ClientNo) -> bool
        ensures { result ≡ list_any (is_of client.0) self.now }
    {
        self.clients.contains(&client) && is_any_of(self.as_slice(), client)
    }

    /// The requests of the client no longer wait.
    pub fn forget(&mut self, client: ClientNo)
        ensures { self.new ≡ without (is_of client.0) self.old }
    {
        if !self.clients.remove(&client) {
            return;
        }
        let_go(&mut self.items, self.gone);
        self.gone = 0;
        forget_of(&mut self.items, client);
    }

    /// The requests of the client under the tag no longer wait.
    pub fn withdraw(&mut self, client: ClientNo, tag: Tag)
        ensures { self.new ≡ without (is_under client.0 tag.0) self.old }
    {
        let_go(&mut self.items, self.gone);
        self.gone = 0;
        forget_under(&mut self.items, client, tag);
    }

    /// The requests of the client under these tags no longer wait.
    pub fn leave(&mut self, client: ClientNo, tags: &[Tag])
        ensures { self.new ≡ without (is_left client.0 (tag_numbers tags.now)) self.old }
    {
        let_go(&mut self.items, self.gone);
        self.gone = 0;
        leave_under(&mut self.items, client, tags);
    }

    /// Whether a create waits under the key of the open.
    pub fn asks_with(&self, one: &OpenEntry) -> bool
        ensures { result ≡ list_any (λ waiting. asks_with one.now waiting.held) self.now }
    {
        one_asks_with(self.as_slice(), one)
    }
}

// Whether a request of the client is among these.
fn is_any_of(queue: &[Held], client: ClientNo) -> bool
    ensures { result ≡ list_any (is_of client.0) queue.now }
{
    queue.iter().any(|one| one.client == client)
}

// Whether a create is among these under the key of the open.
fn one_asks_with(queue: &[Held], one: &OpenEntry) -> bool
    ensures { result ≡ list_any (λ waiting. asks_with one.now waiting.held) queue.now }
{
    queue.iter().any(|held| held.asks_with(one))
}

// So many at the front are taken out.
fn let_go(items: &mut Vec<Held>, gone: usize)
    requires { gone ≤ length items.old.items }
    ensures { items.new.items ≡ drop gone items.old.items }
{
    drop(items.drain(..gone));
}

// The requests of the client no longer wait.
fn forget_of(queue: &mut Vec<Held>, client: ClientNo)
    ensures { queue.new.items ≡ without (is_of client.0) queue.old.items }
{
    queue.retain(|one| one.client != client);
}

// The requests of the client under the tag no longer wait.
fn forget_under(queue: &mut Vec<Held>, client: ClientNo, tag: Tag)
    ensures { queue.new.items ≡ without (is_under client.0 tag.0) queue.old.items }
{
    queue.retain(|one| !(one.client == client && one.tag == tag));
}

// The requests of the client under these tags no longer wait.
fn leave_under(queue: &mut Vec<Held>, client: ClientNo, tags: &[Tag])
    ensures { queue.new.items ≡ without (is_left client.0 (tag_numbers tags.now)) queue.old.items }
{
    queue.retain(|one| !(one.client == client && is_among(tags, one.tag)));
}

// Whether the tag is one of these.
fn is_among(tags: &[Tag], tag: Tag) -> bool
    ensures { result ≡ list_any (λ other. tag.0 == other) (tag_numbers tags.now) }
{
    is_any(tags, tag)
}

fn is_any(tags: &[Tag], tag: Tag) -> bool
    ensures { result ≡ list_any (λ other. tag.0 == other.0) tags.now }
{
    tags.iter().any(|other| tag == *other)
}
