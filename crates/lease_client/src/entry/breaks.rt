ghost use Rattle.std.specs.Prelude.{◌≡◌, ◌∷◌, ◌++◌, [], map, OnOk, None, if◌then◌else◌};
ghost use Rattle.lease_state.specs.State.{state_of};
ghost use Rattle.lease_model.specs.client.Taken.{broken_turn};
ghost use Rattle.lease_model.specs.client.Requests.{close_request};
ghost use Rattle.lease_model.specs.client.State.{live_entry};
ghost use Rattle.lease_model.specs.client.Step.{write_requests};
ghost use Rattle.lease_model.specs.messages.ToBytes.{request_written};
ghost use Rattle.lease_model.specs.client.Taken as rules;
ghost use Rattle.lease_client.specs.Answers.{answer_of};
ghost use Rattle.lease_client.specs.Heard.{notice_read};
ghost use Rattle.lease_client.specs.Ended.{is_ended_at};
ghost use Rattle.lease_client.specs.Turns.{turned_to, turn_written};

use crate::entry::turn::Given;
use crate::entry::{Entry, Live, Phase};
use crate::requests;
use crate::values::command::Answer;
use crate::values::state::gives_up;
use crate::writes::queue::Writes;
use lease_state::{LeaseState, Memory, Request};
use lease_wire::Notification;

impl Entry {
    /// The entry's lease is broken (MS-SMB2 3.2.5.19.2). An entry that isn't live passes it over.
    ///
    /// # Errors
    ///
    /// `Memory` where there is none left for what is sent.
    #[tactic(auto, unfolding(lease_model::specs::client::Taken::break_turn))]
    pub fn broken(&mut self, notice: &Notification, given: &mut Given) -> Result<(), Memory>
        ensures { OnOk result (turned_to self.new given.new
            ≡ turn_written (broken_turn (notice_read notice.now) self.old)) }
    {
        let Phase::Live(live) = &mut self.phase else {
            given.begin(Answer::Quiet);
            return Ok(());
        };
        let new = live.belief.meet(notice.new);
        if live.is_ended_at(new) {
            live.give_up(&mut self.sent, Answer::Quiet, given)?;
            self.phase = Phase::Closed;
            return Ok(());
        }
        live.lowered(&mut self.sent, notice, new, given)
    }
}

impl Live {
    // Whether the open is given up where this is the new belief: a parked entry that loses its handles closes its open, which
    // is its answer.
    fn is_ended_at(&self, new: LeaseState) -> bool
        ensures { result ≡ is_ended_at self.now (state_of new) }
    {
        self.handles.count() == 0 && self.belief.caches_handles() && !new.caches_handles()
    }

    /// The unsent writes and a Close are sent, with this answer: the open is over.
    ///
    /// # Errors
    ///
    /// `Memory` where there is none left for what is sent.
    #[tactic(auto, using(crate::proofs::Written::written_more))]
    pub fn give_up(
        &mut self,
        sent: &mut Writes,
        answer: Answer,
        given: &mut Given,
    ) -> Result<(), Memory>
        ensures sent { OnOk result (sent.new ≡ sent.old ++ self.old.unsent) }
        ensures given { OnOk result (given.new ≡ record {
          answer = answer_of answer;
          requests = map request_written
              (write_requests self.old.file_id self.old.unsent ++ close_request self.old.file_id ∷ []);
          notes = [];
        }) }
    {
        given.begin(answer);
        self.send_unsent(sent, &mut given.requests)?;
        given.requests.push(requests::close(self.file_id))?;
        Ok(())
    }

    // The new belief is what the old one and the notification have in common. Unsent writes go before the acknowledgment where
    // writes or handles are given up.
    #[tactic(auto, using(crate::proofs::Written::written_more))]
    fn lowered(
        &mut self,
        sent: &mut Writes,
        notice: &Notification,
        new: LeaseState,
        given: &mut Given,
    ) -> Result<(), Memory>
        ensures { OnOk result (turned_to (live_entry self.new sent.new) given.new
            ≡ turn_written (rules.belief_lowered self.old sent.old (notice_read notice.now) (state_of new))) }
    {
        given.begin(Answer::Quiet);
        if gives_up(self.belief, new) {
            self.send_unsent(sent, &mut given.requests)?;
        }
        push_acknowledgment(&mut given.requests, notice, new)?;
        self.believe(new);
        Ok(())
    }

    /// The unsent writes are sent, in order.
    ///
    /// # Errors
    ///
    /// `Memory` where there is none left for the requests.
    pub fn send_unsent(
        &mut self,
        sent: &mut Writes,
        requests: &mut Vec<Request>,
    ) -> Result<(), Memory>
        ensures live { OnOk result (self.new ≡ record self.old { unsent = [] }) }
        ensures sent { OnOk result (sent.new ≡ sent.old ++ self.old.unsent) }
        ensures requests { OnOk result (requests.new.items
            ≡ requests.old.items ++ map request_written (write_requests self.old.file_id self.old.unsent)) }
    {
        requests::push_writes(requests, self.file_id, self.file.unsent())?;
        self.file.send(sent)
    }

    /// The belief is this one; without reads the base is dropped.
    pub fn believe(&mut self, new: LeaseState)
        ensures { self.new ≡ record self.old {
          belief = state_of new;
          base = if (state_of new).read then self.old.base else None;
        } }
    {
        self.belief = new;
        if !new.caches_reads() {
            self.file.forget();
        }
    }
}

// An acknowledgment of this state, where one is asked for.
fn push_acknowledgment(
    requests: &mut Vec<Request>,
    notice: &Notification,
    state: LeaseState,
) -> Result<(), Memory>
    ensures { OnOk result (requests.new.items ≡ requests.old.items
        ++ map request_written (rules.acknowledgment (notice_read notice.now) (state_of state))) }
{
    if notice.ack_required {
        requests.push(requests::acknowledge(notice.key, state))?;
    }
    Ok(())
}
