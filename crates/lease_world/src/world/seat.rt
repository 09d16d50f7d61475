ghost use Rattle.std.specs.Prelude.{◌≡◌, ◌++◌, [], ◌∷◌, ◌==◌, OnOk, IfOk, length, drop};
ghost use Rattle.lease_world.specs.world.Passages.{sent_noted};
ghost use Rattle.lease_model.specs.client.Calls.{ClientCall};
ghost use Rattle.lease_model.specs.messages.FromBytes.{reply_of};
ghost use Rattle.lease_client.specs.Answers.{command_of};
ghost use Rattle.lease_client.specs.Known.{client_of};
ghost use Rattle.lease_model.specs.client.Commanded.{commanded};
ghost use Rattle.lease_world.specs.world.Seats.{is_link, with_replies, with_requests, PopsRequest, PopsReply, StepsSeat};

use crate::copies::copy_request;
use crate::world::contents::Contents;
use crate::world::link::Link;
use crate::world::replies::Replies;
use lease_client::{Client, Command, Given};
use lease_facts::Passage;
use lease_state::{ClientNo, Memory, Reply, Request};
use std::alloc::Global;
use std::collections::VecDeque;
use std::marker::Model;

/// A client, its link, and the messages on their way, the oldest first.
#[derive(Debug, Drop)]
pub struct Seat {
    guid: [u8; 16],
    client: Client,
    link: Link,
    requests: VecDeque<Request>,
    replies: Replies,
}

impl Model for Seat {
    ghost use Rattle.lease_world.specs.world.Seats as seats;

    ghost Value = { seats.Seat };

    ghost view = { λ seat. record {
      guid = seat.guid;
      client = seat.client;
      link = seat.link;
      requests = seat.requests.items;
      replies = seat.replies;
    } };
}

impl Seat {
    /// A client whose link is down, with nothing on its way.
    pub fn new(alloc: Global, guid: [u8; 16], client: Client) -> Seat
        ensures { result ≡ record { guid = guid; client = client; link = Link.Down; requests = []; replies = [] } }
    {
        Seat {
            guid,
            client,
            link: Link::Down,
            requests: VecDeque::new(alloc),
            replies: Replies::new(alloc),
        }
    }

    /// The client's ClientGuid.
    pub fn guid(&self) -> [u8; 16]
        ensures { result ≡ self.now.guid }
    {
        self.guid
    }

    /// Whether this is the link.
    pub fn has_link(&self, link: Link) -> bool
        ensures { result ≡ is_link self.now.link link }
    {
        matches!(
            (self.link, link),
            (Link::Down, Link::Down) | (Link::Up, Link::Up) | (Link::Cut, Link::Cut)
        )
    }

    /// The link is this from now on.
    pub fn set_link(&mut self, link: Link)
        ensures { self.new ≡ record self.old { link = link } }
    {
        self.link = link;
    }

    /// The link is cut: nothing is on its way any more.
    pub fn cut(&mut self)
        ensures { self.new ≡ record self.old { link = Link.Cut; requests = []; replies = [] } }
    {
        self.link = Link::Cut;
        self.requests.clear();
        self.replies.clear();
    }

    /// The client's application gives a command, and what the client sends is on its way. Its notes
    /// are given.
    ///
    /// # Errors
    ///
    /// `Memory` where there is none left.
    pub fn app(&mut self, command: Command, given: &mut Given) -> Result<(), Memory>
        ensures steps { OnOk result (StepsSeat (ClientCall.Commanded (command_of command)) given.new.notes self.old self.new) }
        ensures answer { OnOk result (given.new.answer ≡ (commanded (client_of self.old.client) (command_of command)).answer) }
    {
        self.client.app_in_place(command, given)?;
        self.send_all(given)
    }

    /// The client takes a reply, and what it sends is on its way. Its notes are given.
    ///
    /// # Errors
    ///
    /// `Memory` where there is none left.
    pub fn take(&mut self, reply: Reply, given: &mut Given) -> Result<(), Memory>
        ensures { OnOk result (StepsSeat (ClientCall.Taken (reply_of reply)) given.new.notes self.old self.new) }
    {
        self.client.take_in_place(reply, given)?;
        self.send_all(given)
    }

    /// The client notices that its connection is lost, and what it sends is on its way. Its notes are
    /// given.
    ///
    /// # Errors
    ///
    /// `Memory` where there is none left.
    pub fn notice(&mut self, given: &mut Given) -> Result<(), Memory>
        ensures { OnOk result (StepsSeat ClientCall.Noticed given.new.notes self.old self.new) }
    {
        self.client.notice_in_place(given)?;
        self.send_all(given)
    }

    /// The client is connected, and what it sends is on its way. Its notes are given.
    ///
    /// # Errors
    ///
    /// `Memory` where there is none left.
    pub fn connect(&mut self, given: &mut Given) -> Result<(), Memory>
        ensures { OnOk result (StepsSeat ClientCall.Connected given.new.notes self.old self.new) }
    {
        self.client.connect_in_place(given)?;
        self.send_all(given)
    }

    // The requests that the client gave out are on their way, where its link is up; else they are lost.
    fn send_all(&mut self, given: &mut Given) -> Result<(), Memory>
        ensures sent { OnOk result (self.new ≡ with_requests given.old.requests self.old) }
        ensures notes { given.new.notes ≡ given.old.notes }
        ensures answer { given.new.answer ≡ given.old.answer }
    {
        if self.link == Link::Up && !given.requests.is_empty() {
            push_all(&mut self.requests, given)?;
        }
        Ok(())
    }

    /// How the client is connected.
    pub fn link(&self) -> Link
        ensures { result ≡ self.now.link }
    {
        self.link
    }

    /// How many requests of the client are on their way.
    pub fn count_requests(&self) -> usize
        ensures { result ≡ length self.now.requests }
    {
        self.requests.len()
    }

    /// Adds the requests on their way but for so many of the oldest, each as sent after so many facts.
    ///
    /// # Errors
    ///
    /// `Memory` where there is none left for them.
    pub fn push_sent(
        &self,
        passages: &mut Vec<Passage>,
        client: ClientNo,
        waiting: usize,
        facts: usize,
    ) -> Result<(), Memory>
        ensures { OnOk result (passages.new.items
            ≡ passages.old.items ++ sent_noted client facts (drop waiting self.now.requests)) }
    {
        for place in waiting..self.count_requests() {
            passages.push(Passage::Sent {
                client,
                request: copy_request(&self.requests[place])?,
                facts,
            })?;
        }
        Ok(())
    }

    /// Whether no request of the client is on its way.
    pub fn has_no_request(&self) -> bool
        ensures { result ≡ (length self.now.requests == 0) }
    {
        self.requests.is_empty()
    }

    /// Whether no reply is on its way to the client.
    pub fn has_no_reply(&self) -> bool
        ensures { result ≡ (length self.now.replies == 0) }
    {
        self.replies.is_empty()
    }

    /// A reply is on its way to the client.
    ///
    /// # Errors
    ///
    /// `Memory` where there is none left for it.
    pub fn push_reply(&mut self, contents: &mut Contents, reply: Reply) -> Result<(), Memory>
        ensures { OnOk result (self.new ≡ with_replies (reply ∷ []) self.old) }
    {
        self.replies.push(contents, reply)
    }

    /// The oldest reply, which is taken; `None` where none is on its way.
    ///
    /// # Errors
    ///
    /// `Memory` where there is none left for the bytes of a read.
    pub fn pop_reply(&mut self) -> Result<Option<Reply>, Memory>
        ensures { IfOk result (λ popped. PopsReply popped self.old self.new) }
    {
        self.replies.pop(*self.requests.allocator())
    }

    /// The oldest request, which is taken; `None` where none is on its way.
    pub fn pop_request(&mut self) -> Option<Request>
        ensures { PopsRequest result self.old self.new }
    {
        self.requests.pop_front()
    }

    /// A request is sent in the client's name, which is lost where its link isn't up.
    ///
    /// # Errors
    ///
    /// `Memory` where there is none left for the queue.
    pub fn send(&mut self, request: Request) -> Result<(), Memory>
        ensures { OnOk result (self.new ≡ with_requests (request ∷ []) self.old) }
    {
        if self.link == Link::Up {
            self.requests.push_back(request)?;
        }
        Ok(())
    }
}

// Puts requests after those that are in the queue.
fn push_all(queue: &mut VecDeque<Request>, given: &mut Given) -> Result<(), Memory>
    ensures requests { OnOk result (queue.new.items ≡ queue.old.items ++ given.old.requests) }
    ensures notes { given.new.notes ≡ given.old.notes }
    ensures answer { given.new.answer ≡ given.old.answer }
{
    for request in given.requests.drain(..) {
        queue.push_back(request)?;
    }
    Ok(())
}
