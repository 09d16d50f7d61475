ghost use Rattle.std.specs.Prelude.{◌≡◌, ◌++◌, [], ◌∷◌, Some, None, OnOk, IfSome, is_some, true, unwrap_or};
ghost use Rattle.std.specs.Option.{option_map};
ghost use Rattle.lease_world.specs.world.Seats.{HasKept};

use crate::copies::copy_reply;
use lease_state::{Memory, Reply};
use std::alloc::Global;
use std::marker::Model;

/// The messages that a record speaks of, where they are kept.
#[derive(Debug, Drop)]
pub struct Messages {
    kept: Option<Vec<Reply>>,
}

impl Model for Messages {
    ghost use Rattle.std.specs.Prelude as prelude;
    ghost use Rattle.std.specs.Option as option;
    ghost use Rattle.lease_state.specs.declared.reply.Reply as reply;

    ghost Value = { prelude.Option (prelude.List reply.Reply) };

    ghost view = { λ messages. option.option_map (λ kept. kept.items) messages.kept };
}

impl Messages {
    /// None yet, and they are kept.
    pub fn new(alloc: Global) -> Messages
        ensures { result ≡ Some [] }
    {
        Messages {
            kept: Some(Vec::new(alloc)),
        }
    }

    /// None are kept.
    pub fn unkept() -> Messages
        ensures { result ≡ None }
    {
        Messages { kept: None }
    }

    /// Keeps an equal message after those that were, where messages are kept.
    ///
    /// # Errors
    ///
    /// `Memory` where there is none left for it.
    pub fn push(&mut self, message: &Reply) -> Result<(), Memory>
        ensures { OnOk result (HasKept self.old self.new (message.now ∷ [])) }
    {
        if let Some(kept) = &mut self.kept {
            kept.push(copy_reply(message)?)?;
        }
        Ok(())
    }

    /// What was kept; nothing where none were.
    pub fn into_list(self, alloc: Global) -> Vec<Reply>
        ensures { result.items ≡ unwrap_or self [] }
    {
        let Messages { kept } = self;
        match kept {
            Some(kept) => kept,
            None => Vec::new(alloc),
        }
    }
}
