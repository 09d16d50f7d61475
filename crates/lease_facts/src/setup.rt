ghost use Rattle.std.specs.Prelude.{◌≡◌};
ghost use Rattle.lease_model.specs.world.Events.{client_of};
ghost use Rattle.lease_facts.specs.Setups.{event_of, event_client, client_word, client_event, client_named, client_event_of};
ghost use Rattle.lease_facts.specs.Setups.{parts_listed};

use crate::words::is;
use lease_client::Command;
use lease_state::{ClientNo, Content, FileNo, Request};

/// What a run begins with (profile).
#[derive(Debug, Drop)]
pub struct Setup {
    /// The files, numbered from 1: 8 at most.
    pub files: Vec<Content>,
    /// The ClientGuids of the clients, numbered from 1: 16 at most, and no two of them equal.
    pub clients: Vec<[u8; 16]>,
}

/// What can happen in a world (profile). An event that doesn't apply, or that names a client or a
/// file which the setup lacks, does nothing.
#[derive(Debug, Drop, PartialEq, Eq)]
pub enum Event {
    /// A client's application gives a command.
    App(ClientNo, Command),
    /// The server takes the oldest request of the client.
    ServerTakes(ClientNo),
    /// The client takes the oldest message that was sent to it.
    ClientTakes(ClientNo),
    /// The server loses the client's connection, and all that is on its way is gone.
    Cut(ClientNo),
    /// The client notices that its connection was lost.
    Notice(ClientNo),
    /// The client connects.
    Connect(ClientNo),
    /// The timer of the lease of the client's key of the file runs out.
    Expire(ClientNo, FileNo),
    /// The timer of the client's lowest kept open of the file runs out.
    Scavenge(ClientNo, FileNo),
    /// A request is sent in the client's name that its machine didn't make.
    Raw(ClientNo, Request),
}

/// The kind of an event that says no more than which client it is about.
#[derive(Clone, Copy, Debug, PartialEq, Eq)]
pub enum ClientEvent {
    ServerTakes,
    ClientTakes,
    Cut,
    Notice,
    Connect,
}

impl Event {
    /// The client that it is about.
    pub fn client(&self) -> ClientNo
        ensures value { result ≡ event_client self.now }
        ensures number { result.0 ≡ client_of (event_of self.now) }
    {
        match self {
            Event::App(client, _)
            | Event::ServerTakes(client)
            | Event::ClientTakes(client)
            | Event::Cut(client)
            | Event::Notice(client)
            | Event::Connect(client)
            | Event::Expire(client, _)
            | Event::Scavenge(client, _)
            | Event::Raw(client, _) => *client,
        }
    }

    /// Its kind, where it says no more than which client it is about.
    pub fn client_event(&self) -> Option<ClientEvent>
        ensures { result ≡ client_event_of self.now }
    {
        match self {
            Event::ServerTakes(_) => Some(ClientEvent::ServerTakes),
            Event::ClientTakes(_) => Some(ClientEvent::ClientTakes),
            Event::Cut(_) => Some(ClientEvent::Cut),
            Event::Notice(_) => Some(ClientEvent::Notice),
            Event::Connect(_) => Some(ClientEvent::Connect),
            _ => None,
        }
    }
}

impl ClientEvent {
    /// The word that the line of such an event begins with.
    pub fn word(self) -> &'static str
        ensures { result.now ≡ client_word self }
    {
        match self {
            ClientEvent::ServerTakes => "serve",
            ClientEvent::ClientTakes => "take",
            ClientEvent::Cut => "cut",
            ClientEvent::Notice => "notice",
            ClientEvent::Connect => "connect",
        }
    }

    /// The kind that has this word.
    #[tactic(auto, unfolding(crate::specs::Setups::client_named_among))]
    pub fn named(word: &[u8]) -> Option<ClientEvent>
        ensures { result ≡ client_named word.now }
    {
        if is(word, b"serve") {
            Some(ClientEvent::ServerTakes)
        } else if is(word, b"take") {
            Some(ClientEvent::ClientTakes)
        } else if is(word, b"cut") {
            Some(ClientEvent::Cut)
        } else if is(word, b"notice") {
            Some(ClientEvent::Notice)
        } else if is(word, b"connect") {
            Some(ClientEvent::Connect)
        } else {
            None
        }
    }

    /// The event of this kind about a client.
    pub fn of(self, client: ClientNo) -> Event
        ensures { result ≡ client_event self client }
    {
        match self {
            ClientEvent::ServerTakes => Event::ServerTakes(client),
            ClientEvent::ClientTakes => Event::ClientTakes(client),
            ClientEvent::Cut => Event::Cut(client),
            ClientEvent::Notice => Event::Notice(client),
            ClientEvent::Connect => Event::Connect(client),
        }
    }

    /// The words of all lines of schedules.
    pub fn listed() -> &'static str
        ensures { result.now ≡ parts_listed }
    {
        "file, client, open, close, read, flush, write, serve, take, cut, notice, connect, expire, scavenge or raw"
    }
}
