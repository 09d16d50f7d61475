ghost use Rattle.std.specs.Prelude.{◌≡◌, OnOk, IsOk, true};
ghost use Rattle.lease_model.specs.client.Commanded.{commanded, step_by, turn_by, is_refused, file_of};
ghost use Rattle.lease_model.specs.client.State.{knows_file};
ghost use Rattle.lease_client.specs.Answers.{command_of};
ghost use Rattle.lease_client.specs.Calls.{told_step};
ghost use Rattle.lease_client.specs.Known.{client_of};
ghost use Rattle.lease_client.specs.Turns.{IsAfter};

use crate::entry::turn::Given;
use crate::machine::Machine;
use crate::machine::message::Message;
use crate::values::command::{Answer, Command, Refusal};
use lease_state::{FileNo, Memory};

impl Machine {
    /// A command comes from the application.
    ///
    /// # Errors
    ///
    /// `Memory` where there is none left, and never where the command is refused.
    #[inline]
    pub fn app(&mut self, command: Command, given: &mut Given) -> Result<(), Memory>
        ensures after { OnOk result (IsAfter self.new given.new
            (commanded (client_of self.old) (command_of command))) }
        ensures refused { is_refused (commanded (client_of self.old) (command_of command)).answer ≡ true → IsOk result }
    {
        let file = command.file();
        if !self.knows(file) {
            given.begin(Answer::Refused(Refusal::NotOpen));
            return Ok(());
        }
        self.command(file, command, given)
    }

    // A command about a file that the client has.
    fn command(&mut self, file: FileNo, command: Command, given: &mut Given) -> Result<(), Memory>
        requires known { knows_file (client_of self.old) file.0 ≡ true }
        requires of_file { file.0 ≡ file_of (command_of command) }
        ensures after { OnOk result (IsAfter self.new given.new
            (commanded (client_of self.old) (command_of command))) }
        ensures refused { is_refused (commanded (client_of self.old) (command_of command)).answer ≡ true → IsOk result }
    {
        clients_are_sound();
        let key = self.key(file);
        let old = self.belief(file);
        self.command_entry(file, key, command, given)?;
        given.note_belief(file, old, self.belief(file))?;
        Ok(())
    }

    /// A reply reaches the entry of a file.
    ///
    /// # Errors
    ///
    /// `Memory` where there is none left.
    #[inline]
    pub fn tell(&mut self, file: FileNo, message: Message, given: &mut Given) -> Result<(), Memory>
        requires { knows_file (client_of self.old) file.0 ≡ true }
        ensures { OnOk result (IsAfter self.new given.new
            (told_step (client_of self.old) file.0 message)) }
    {
        let key = self.key(file);
        let old = self.belief(file);
        self.tell_entry(file, key, message, given)?;
        given.note_belief(file, old, self.belief(file))?;
        Ok(())
    }
}

use lease_laws::clients_are_sound;
