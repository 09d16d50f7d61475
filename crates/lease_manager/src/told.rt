ghost use Rattle.std.specs.Prelude.{◌≡◌, ◌++◌, ◌∷◌, [], OnOk, map};
ghost use Rattle.lease_manager.specs.LeftOpens.{numbers};
ghost use Rattle.std.specs.Option.{option_map};
ghost use Rattle.manager_model.specs.Decisions as model;
ghost use Rattle.lease_manager.specs.Outs.{decision_of, decisions, option_list, out_of};

use crate::outs::Outs;
use crate::values::decision::{BreakNotice, Decision};
use crate::values::number::{ClientNo, Tag};
use crate::values::out::Out;
use lease_state::{FileId, Memory, Status};
use std::marker::Model;

/// The decisions of a call so far, in order.
#[derive(Debug, Drop)]
pub struct Told {
    items: Vec<Decision>,
}

impl Model for Told {
    ghost use Rattle.std.specs.Prelude.{List};
    ghost use Rattle.manager_model.specs.Decisions as model;
    ghost use Rattle.lease_manager.specs.Outs.{decisions};

    ghost Value = { List model.Decision };

    ghost view = { λ told. decisions told.items.items };
}

impl Told {
    /// Nothing yet, in the memory of a list, whatever was on it.
    pub fn over(list: Vec<Decision>) -> Told
        ensures { result ≡ [] }
    {
        let mut items = list;
        items.clear();
        Told { items }
    }

    /// The list. Allocates nothing.
    pub fn into_vec(self) -> Vec<Decision>
        ensures { decisions result.items ≡ self }
    {
        let Told { items } = self;
        items
    }

    fn push(&mut self, decision: Decision) -> Result<(), Memory>
        ensures { OnOk result (self.new ≡ self.old ++ decision_of decision ∷ []) }
    {
        self.items.push(decision)?;
        Ok(())
    }

    /// The request waits.
    pub fn waits(&mut self, client: ClientNo, tag: Tag) -> Result<(), Memory>
        ensures { OnOk result (self.new ≡ self.old ++ model.Decision.Waits client.0 tag.0 ∷ []) }
    {
        self.push(Decision::Waits { client, tag })
    }

    /// The request is refused.
    pub fn refused(&mut self, client: ClientNo, tag: Tag, status: Status) -> Result<(), Memory>
        ensures { OnOk result (self.new ≡ self.old ++ model.Decision.Refused client.0 tag.0 status ∷ []) }
    {
        self.push(Decision::Refused {
            client,
            tag,
            status,
        })
    }

    /// An acknowledgment is refused.
    pub fn not_acknowledged(&mut self, client: ClientNo, status: Status) -> Result<(), Memory>
        ensures { OnOk result (self.new ≡ self.old ++ model.Decision.NotAcknowledged client.0 status ∷ []) }
    {
        self.push(Decision::NotAcknowledged { client, status })
    }

    /// The request was taken back.
    pub fn withdrawn(&mut self, client: ClientNo, tag: Tag) -> Result<(), Memory>
        ensures { OnOk result (self.new ≡ self.old ++ model.Decision.Withdrawn client.0 tag.0 ∷ []) }
    {
        self.push(Decision::Withdrawn { client, tag })
    }

    /// The open of this FileId is no more.
    pub fn ended(&mut self, file_id: FileId) -> Result<(), Memory>
        ensures { OnOk result (self.new ≡ self.old ++ model.Decision.Ended file_id.0 ∷ []) }
    {
        self.push(Decision::Ended { file_id })
    }

    /// The opens of these FileIds are no more.
    pub fn ended_all(&mut self, ids: &[FileId]) -> Result<(), Memory>
        ensures { OnOk result (self.new ≡ self.old ++ map model.Decision.Ended (numbers ids.now)) }
    {
        for id in ids {
            self.ended(*id)?;
        }
        Ok(())
    }

    /// The opens of these FileIds wait for their clients from now on.
    pub fn left_behind_all(&mut self, ids: &[FileId]) -> Result<(), Memory>
        ensures { OnOk result (self.new ≡ self.old ++ map model.Decision.LeftBehind (numbers ids.now)) }
    {
        for id in ids {
            self.left_behind(*id)?;
        }
        Ok(())
    }

    fn left_behind(&mut self, file_id: FileId) -> Result<(), Memory>
        ensures { OnOk result (self.new ≡ self.old ++ model.Decision.LeftBehind file_id.0 ∷ []) }
    {
        self.push(Decision::LeftBehind { file_id })
    }

    /// The decisions of what was given out for the request under the tag.
    pub fn tell(&mut self, tag: Tag, outs: &Outs) -> Result<(), Memory>
        ensures { OnOk result (self.new ≡ self.old ++ model.told_of tag.0 outs.now) }
    {
        for out in outs.items() {
            self.tell_one(tag, *out)?;
        }
        Ok(())
    }

    // What is told of it, if anything is.
    fn tell_one(&mut self, tag: Tag, out: Out) -> Result<(), Memory>
        ensures { OnOk result (self.new ≡ self.old ++ model.told_of_out tag.0 (out_of out)) }
    {
        match decided(tag, out) {
            Some(decision) => {
                self.push(decision)?;
                Ok(())
            }
            None => Ok(()),
        }
    }
}

// What is told of an out for the request under the tag. That a file is opened or changed is told by the answer that goes
// with it.
fn decided(tag: Tag, out: Out) -> Option<Decision>
    ensures { option_list (option_map decision_of result) ≡ model.told_of_out tag.0 (out_of out) }
{
    match out {
        Out::Opened { .. } | Out::Changed { .. } => None,
        Out::Created {
            client,
            file_id,
            answer,
            ..
        } => Some(Decision::Opened {
            client,
            tag,
            file_id,
            answer,
        }),
        Out::Refused { client, status, .. } => Some(Decision::Refused {
            client,
            tag,
            status,
        }),
        Out::ReadDone { client, .. } | Out::WriteDone { client, .. } => {
            Some(Decision::GoesOn { client, tag })
        }
        Out::Closed { client, .. } => Some(Decision::Closed { client, tag }),
        Out::Broken {
            key,
            current,
            lowered,
        } => Some(Decision::Breaks {
            client: key.client,
            notice: BreakNotice {
                ack_required: current.needs_ack(),
                key: key.bytes,
                current,
                lowered,
            },
        }),
        Out::Acknowledged { key, state } => Some(Decision::Acknowledged {
            client: key.client,
            key: key.bytes,
            state,
        }),
        Out::NotAcknowledged { client, status } => Some(Decision::NotAcknowledged {
            client,
            status,
        }),
    }
}
