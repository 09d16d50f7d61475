ghost use Rattle.std.specs.Prelude.{◌≡◌, ◌+◌, ◌<◌, ◌^◌, true, IfOk, OnOk, IsOk, ◌++◌, ◌&&◌, [], ◌∷◌, List, None, false};
ghost use Rattle.lease_model.specs.client.Commanded.{joint_terms};
ghost use Rattle.lease_model.specs.client.State.{Pending, live_entry};
ghost use Rattle.lease_model.specs.messages.ToBytes.{request_written};
ghost use Rattle.lease_model.specs.client.Requests.{open_request};
ghost use Rattle.lease_model.specs.values.Sharing as sharing;
ghost use Rattle.lease_model.specs.client.Commanded as rules;
ghost use Rattle.lease_model.specs.client.State as state;
ghost use Rattle.lease_client.specs.Answers.{refusal_of};
ghost use Rattle.lease_client.specs.Terms.{terms_of};
ghost use Rattle.lease_client.specs.Ended.{is_given_up_for};
ghost use Rattle.lease_client.specs.Turns.{turned_to, turn_written};

use crate::entry::turn::Given;
use crate::entry::{Asked, Entry, Live, Phase};
use crate::requests::{self, Terms};
use crate::values::command::{Answer, Refusal};
use lease_state::{Access, FileNo, LeaseKey, Memory, Share};

impl Entry {
    /// An Open of the file, whose key this is. A file that isn't open is opened only while the
    /// client is online (profile).
    ///
    /// # Errors
    ///
    /// `Memory` where there is none left for the request, and never where the Open is refused.
    #[tactic(auto, using(crate::proofs::Written::written_more), unfolding(lease_model::specs::client::Commanded::live_open_turn, lease_model::specs::client::Commanded::other_turn, lease_model::specs::client::Commanded::anew_turn))]
    pub fn open(
        &mut self,
        is_online: bool,
        file: FileNo,
        key: LeaseKey,
        terms: Terms,
        given: &mut Given,
    ) -> Result<(), Memory>
        ensures turn { OnOk result (turned_to self.new given.new
            ≡ turn_written (rules.open_turn is_online key.0 file.0 (terms_of terms) self.old)) }
        ensures refused { rules.is_refused
            (rules.open_turn is_online key.0 file.0 (terms_of terms) self.old).answer ≡ true → IsOk result }
    {
        match &mut self.phase {
            Phase::Closed => self.open_first(is_online, file, key, terms, given),
            Phase::Live(live) => {
                if live.is_given_up_for(terms) {
                    live.give_up(&mut self.sent, Answer::Waiting, given)?;
                    self.send_open(file, key, terms, given)?;
                    return Ok(());
                }
                live.open(file, key, terms, given)
            }
            _ => {
                given.begin(Answer::Refused(self.refusal()));
                Ok(())
            }
        }
    }

    // An Open of a file that isn't open.
    // docs/DECISIONS.md: "An open between a cut and its notice".
    fn open_first(
        &mut self,
        is_online: bool,
        file: FileNo,
        key: LeaseKey,
        terms: Terms,
        given: &mut Given,
    ) -> Result<(), Memory>
        requires { self.old.phase ≡ state.Phase.Closed }
        ensures turn { OnOk result (turned_to self.new given.new
            ≡ turn_written (rules.first_open_turn is_online key.0 file.0 self.old.sent (terms_of terms))) }
        ensures refused { rules.is_refused
            (rules.first_open_turn is_online key.0 file.0 self.old.sent (terms_of terms)).answer ≡ true → IsOk result }
    {
        if !is_online {
            given.begin(Answer::Refused(Refusal::Offline));
            return Ok(());
        }
        given.begin(Answer::Waiting);
        self.send_open(file, key, terms, given)
    }

    // A create is sent, after what is sent already, and the entry waits for its answer.
    fn send_open(
        &mut self,
        file: FileNo,
        key: LeaseKey,
        terms: Terms,
        given: &mut Given,
    ) -> Result<(), Memory>
        ensures entry { OnOk result (self.new ≡ rules.opening_entry (terms_of terms) self.old.sent) }
        ensures given { OnOk result (given.new ≡ record given.old {
          requests = given.old.requests ++ request_written (open_request key.0 file.0 (terms_of terms)) ∷ [];
        }) }
    {
        let alloc = self.alloc();
        given
            .requests
            .push(requests::open(alloc, file, key, terms)?)?;
        self.phase = Phase::Opening {
            access: terms.access,
            share: terms.share,
        };
        Ok(())
    }

    /// Why the entry accepts no command but an Open, where it isn't live or is parked.
    pub fn refusal(&self) -> Refusal
        ensures { refusal_of result ≡ rules.refusal_in self.now.phase }
    {
        match &self.phase {
            Phase::Closed | Phase::Live(_) => Refusal::NotOpen,
            Phase::Opening { .. } | Phase::Reconnecting(_) => Refusal::Busy,
            Phase::Offline(_) => Refusal::Offline,
        }
    }
}

fn is_same_access(one: Access, other: Access) -> bool
    ensures { result ≡ sharing.same_access one other }
{
    one == other
}

fn is_same_share(one: Share, other: Share) -> bool
    ensures { result ≡ sharing.same_share one other }
{
    one == other
}

// The access that does what either does.
fn either_access(one: Access, other: Access) -> Access
    ensures { result ≡ sharing.either_access one other }
{
    match (one, other) {
        (Access::Read, Access::Read) => Access::Read,
        (Access::Write, Access::Write) => Access::Write,
        _ => Access::ReadWrite,
    }
}

// The share that lets others do what both let them do.
fn both_share(one: Share, other: Share) -> Share
    ensures { result ≡ sharing.both_share one other }
{
    match (one, other) {
        (Share::ReadWrite, share) | (share, Share::ReadWrite) => share,
        (Share::Read, Share::Read) => Share::Read,
        (Share::Write, Share::Write) => Share::Write,
        _ => Share::Nothing,
    }
}

impl Live {
    // Whether the open is on these terms.
    fn is_open_on(&self, terms: Terms) -> bool
        ensures { result ≡ (sharing.same_access (terms_of terms).access self.now.access
            && sharing.same_share (terms_of terms).share self.now.share) }
    {
        is_same_access(terms.access, self.access) && is_same_share(terms.share, self.share)
    }

    // Whether an Open on these terms gives the open up: it is parked, and on other ones.
    fn is_given_up_for(&self, terms: Terms) -> bool
        ensures { result ≡ is_given_up_for self.now (terms_of terms) }
    {
        self.handles.asking().is_none() && !self.is_open_on(terms) && self.handles.count() == 0
    }

    // While an entry asks for more, every Open is refused.
    #[tactic(auto, unfolding(lease_model::specs::client::Commanded::live_open_turn, lease_model::specs::client::Commanded::other_turn))]
    fn open(
        &mut self,
        file: FileNo,
        key: LeaseKey,
        terms: Terms,
        given: &mut Given,
    ) -> Result<(), Memory>
        requires { is_given_up_for self.old (terms_of terms) ≡ false }
        ensures turn { (sent : List Pending) → OnOk result (turned_to (live_entry self.new sent) given.new
            ≡ turn_written (rules.live_open_turn key.0 file.0 self.old sent (terms_of terms))) }
        ensures refused { (sent : List Pending) → rules.is_refused
            (rules.live_open_turn key.0 file.0 self.old sent (terms_of terms)).answer ≡ true → IsOk result }
    {
        if self.handles.asking().is_some() {
            given.begin(Answer::Refused(Refusal::Busy));
            return Ok(());
        }
        if self.is_open_on(terms) {
            self.add_handle(given);
            return Ok(());
        }
        self.ask_for_more(file, key, terms, given)
    }

    // One handle more on the open's own terms.
    #[tactic(auto, unfolding(lease_model::specs::client::Commanded::handle_turn, lease_model::specs::values::Limits::count_limit))]
    fn add_handle(&mut self, given: &mut Given)
        requires { self.old.asking ≡ None }
        ensures { (sent : List Pending) → turned_to (live_entry self.new sent) given.new
            ≡ turn_written (rules.handle_turn self.old sent) }
    {
        if self.handles.count() == u32::MAX {
            given.begin(Answer::Refused(Refusal::UsedUp));
            return;
        }
        self.handles = self.handles.with_more();
        given.begin(Answer::Done);
    }

    // What the open has and what is asked for together.
    fn joint_terms(&self, terms: Terms) -> Terms
        ensures { terms_of result ≡ joint_terms self.now (terms_of terms) }
    {
        Terms {
            access: either_access(self.access, terms.access),
            share: both_share(self.share, terms.share),
            want: terms.want,
            durable: terms.durable || self.durable,
        }
    }

    // A second create under the entry's key; the entry goes on until it is answered.
    // docs/DECISIONS.md: "The order of refusals".
    #[tactic(auto, unfolding(lease_model::specs::client::Commanded::more_turn, lease_model::specs::values::Limits::count_limit))]
    fn ask_for_more(
        &mut self,
        file: FileNo,
        key: LeaseKey,
        terms: Terms,
        given: &mut Given,
    ) -> Result<(), Memory>
        ensures turn { (sent : List Pending) → OnOk result (turned_to (live_entry self.new sent) given.new
            ≡ turn_written (rules.more_turn key.0 file.0 self.old sent (terms_of terms))) }
        ensures refused { (sent : List Pending) → rules.is_refused
            (rules.more_turn key.0 file.0 self.old sent (terms_of terms)).answer ≡ true → IsOk result }
    {
        if self.handles.count() == u32::MAX {
            given.begin(Answer::Refused(Refusal::UsedUp));
            return Ok(());
        }
        let terms = self.joint_terms(terms);
        let alloc = *given.requests.allocator();
        given.begin(Answer::Waiting);
        given
            .requests
            .push(requests::open(alloc, file, key, terms)?)?;
        self.handles = self.handles.with_asked(Asked {
            access: terms.access,
            share: terms.share,
        });
        Ok(())
    }
}
