ghost use Rattle.std.specs.Prelude.{◌≡◌, true, IfOk, IsOk, OnErr, OnOk};
ghost use Rattle.lease_state.specs.State.{state_of};
ghost use Rattle.lease_laws.specs.client.Laws.{IsSoundClient};
ghost use Rattle.lease_model.specs.client.State as model;
ghost use Rattle.lease_model.specs.client.Commanded.{commanded};
ghost use Rattle.lease_model.specs.client.Connection.{noticed, connection_made};
ghost use Rattle.lease_model.specs.client.Taken.{taken};
ghost use Rattle.lease_model.specs.messages.FromBytes.{reply_of};
ghost use Rattle.lease_client.specs.Answers.{command_of};
ghost use Rattle.lease_client.specs.Beliefs.{NoneRose, RoseBy};
ghost use Rattle.lease_client.specs.Calls.{is_idle};
ghost use Rattle.lease_model.specs.client.Commanded.{is_refused};
ghost use Rattle.lease_client.specs.Known.{client_of};
ghost use Rattle.lease_client.specs.Links.{linked};
ghost use Rattle.lease_client.specs.Steps.{IsStep, RefusesInPlace, RefusesQuietly};
ghost use Rattle.lease_client.specs.Turns.{IsAfter};

use crate::entry::turn::Given;
use crate::machine::Machine;
use crate::machine::links::Link;
use crate::values::command::Command;
use crate::values::step::Step;
use lease_laws::clients_are_sound;
use lease_state::{FileNo, LeaseState, Memory, Reply};
use std::alloc::Global;
use std::marker::Model;

/// A client machine (MS-SMB2 3.2.1): its files, what it knows of its opens and of their leases, and
/// the writes that aren't answered. Every client keeps the laws of clients: it has a file in its cache
/// only where it believes that it may cache reads, and unsent writes only where it believes that it may
/// cache writes, and each write has its own number.
#[derive(Debug, Drop)]
pub struct Client {
    machine: Machine,
}

impl Model for Client {
    ghost use Rattle.lease_laws.specs.client.Laws.{IsSoundClient};
    ghost use Rattle.lease_client.specs.Known as known;

    ghost Value = { known.Known };

    ghost view = { λ client. client.machine };

    ghost invariant = { λ client. IsSoundClient (known.client_of client.machine) };
}

impl Client {
    /// The client of this ClientGuid, with files from 1 to `files`, that was never connected: no
    /// file is open.
    ///
    /// # Errors
    ///
    /// `Memory` where there is none left for the list of files, and never where there are no files.
    pub fn new(alloc: Global, guid: [u8; 16], files: u8) -> Result<Client, Memory>
        ensures new { IfOk result (λ client. client_of client ≡ model.new_client guid files) }
        ensures no_files { files ≡ 0 → IsOk result }
    {
        clients_are_sound();
        let machine = Machine::new(alloc, guid, files)?;
        Ok(Client { machine })
    }

    /// What the client believes of the lease of a file (MS-SMB2 3.2.1.5, LeaseState). Nothing is
    /// cached where the file isn't open, or the client has no file of this number. Allocates
    /// nothing.
    pub fn belief(&self, file: FileNo) -> LeaseState
        ensures { state_of result ≡ model.belief (client_of self.now) file.0 }
    {
        self.machine.belief(file)
    }

    /// The laws that this client keeps, as every client does: it has a file in its cache only where it
    /// believes that it may cache reads, and unsent writes only where it believes that it may cache writes; it
    /// asks for more only with a handle; what it keeps over a lost connection are buffered writes; and each
    /// write has its own number. Does nothing.
    pub fn laws(&self)
        ensures { IsSoundClient (client_of self.now) }
    {
        let _machine = &self.machine;
    }

    /// A command comes from the application (profile). No belief rises by it; a command that is
    /// refused changes nothing, sends nothing and notes nothing.
    ///
    /// # Errors
    ///
    /// `Memory` where there is none left, and never where the command is refused.
    #[inline(always)]
    pub fn app(self, command: Command) -> Result<Step, Memory>
        ensures step { IfOk result (λ step. IsStep step (commanded (client_of self) (command_of command))) }
        ensures refused { is_refused (commanded (client_of self) (command_of command)).answer ≡ true → IsOk result }
        ensures quiet { IfOk result (λ step. RefusesQuietly (client_of self) step) }
        ensures beliefs { IfOk result (λ step. NoneRose (client_of self) (client_of step.client)) }
    {
        let mut client = self;
        let mut given = client.nothing_given();
        client.app_in_place(command, &mut given)?;
        Ok(Step::of(client, given))
    }

    /// A command comes from the application, as to `app`, and the client is changed in its place (profile). What the call gives
    /// out is in `given` afterwards, whatever was there.
    ///
    /// # Errors
    ///
    /// `Memory` where there is none left, and never where the command is refused. The client has forgotten all but its
    /// ClientGuid then, as a new one without files, and `given` has nothing of worth.
    #[inline(always)]
    pub fn app_in_place(&mut self, command: Command, given: &mut Given) -> Result<(), Memory>
        ensures step { OnOk result (IsAfter self.new given.new (commanded (client_of self.old) (command_of command))) }
        ensures refused { is_refused (commanded (client_of self.old) (command_of command)).answer ≡ true → IsOk result }
        ensures quiet { OnOk result (RefusesInPlace (client_of self.old) self.new given.new) }
        ensures beliefs { OnOk result (NoneRose (client_of self.old) (client_of self.new)) }
        ensures forgotten { OnErr result (client_of self.new ≡ model.new_client (client_of self.old).guid 0) }
    {
        clients_are_sound();
        let guid = self.machine.guid();
        match self.machine.app(command, given) {
            Ok(()) => Ok(()),
            Err(fault) => {
                self.machine.forget(guid);
                Err(fault)
            }
        }
    }

    /// A message comes from the server (MS-SMB2 3.2.5). What fits no entry, and contexts or
    /// notifications that can't be read, are passed over. A belief rises only by the answer to a
    /// create of its file that reports no break in progress.
    ///
    /// # Errors
    ///
    /// `Memory` where there is none left, and never where a Close or an acknowledgment is answered.
    #[inline(always)]
    pub fn take(self, reply: Reply) -> Result<Step, Memory>
        ensures step { IfOk result (λ step. IsStep step (taken (client_of self) (reply_of reply))) }
        ensures idle { is_idle reply ≡ true → IsOk result }
        ensures beliefs { IfOk result (λ step. RoseBy (reply_of reply) (client_of self) (client_of step.client)) }
    {
        let mut client = self;
        let mut given = client.nothing_given();
        client.take_in_place(reply, &mut given)?;
        Ok(Step::of(client, given))
    }

    /// A message comes from the server, as to `take`, and the client is changed in its place (MS-SMB2 3.2.5). What the call gives
    /// out is in `given` afterwards, whatever was there.
    ///
    /// # Errors
    ///
    /// `Memory` where there is none left, and never where a Close or an acknowledgment is answered. The client has forgotten
    /// all but its ClientGuid then, as a new one without files, and `given` has nothing of worth.
    #[inline(always)]
    pub fn take_in_place(&mut self, reply: Reply, given: &mut Given) -> Result<(), Memory>
        ensures step { OnOk result (IsAfter self.new given.new (taken (client_of self.old) (reply_of reply))) }
        ensures idle { is_idle reply ≡ true → IsOk result }
        ensures beliefs { OnOk result (RoseBy (reply_of reply) (client_of self.old) (client_of self.new)) }
        ensures forgotten { OnErr result (client_of self.new ≡ model.new_client (client_of self.old).guid 0) }
    {
        clients_are_sound();
        let guid = self.machine.guid();
        match self.machine.take(reply, given) {
            Ok(()) => Ok(()),
            Err(fault) => {
                self.machine.forget(guid);
                Err(fault)
            }
        }
    }

    /// The client notices that its connection is lost (MS-SMB2 3.2.7.1). Live durable opens wait for the
    /// next connection, with their buffered writes where writes may be cached; any other open is closed.
    ///
    /// # Errors
    ///
    /// `Memory` where there is none left.
    pub fn notice(self) -> Result<Step, Memory>
        ensures step { IfOk result (λ step. IsStep step (noticed (client_of self))) }
        ensures beliefs { IfOk result (λ step. NoneRose (client_of self) (client_of step.client)) }
    {
        let mut client = self;
        let mut given = client.nothing_given();
        client.notice_in_place(&mut given)?;
        Ok(Step::of(client, given))
    }

    /// The client notices that its connection is lost, as by `notice`, and is changed in its place (MS-SMB2 3.2.7.1). What the
    /// call gives out is in `given` afterwards, whatever was there.
    ///
    /// # Errors
    ///
    /// `Memory` where there is none left. The client has forgotten all but its ClientGuid then, as a new one without files, and
    /// `given` has nothing of worth.
    pub fn notice_in_place(&mut self, given: &mut Given) -> Result<(), Memory>
        ensures step { OnOk result (IsAfter self.new given.new (noticed (client_of self.old))) }
        ensures beliefs { OnOk result (NoneRose (client_of self.old) (client_of self.new)) }
        ensures forgotten { OnErr result (client_of self.new ≡ model.new_client (client_of self.old).guid 0) }
    {
        self.link(Link::Lost, given)
    }

    /// The client connects (3.2.4.4): a create is sent for each open that waits for it.
    ///
    /// # Errors
    ///
    /// `Memory` where there is none left.
    pub fn connect(self) -> Result<Step, Memory>
        ensures step { IfOk result (λ step. IsStep step (connection_made (client_of self))) }
        ensures beliefs { IfOk result (λ step. NoneRose (client_of self) (client_of step.client)) }
    {
        let mut client = self;
        let mut given = client.nothing_given();
        client.connect_in_place(&mut given)?;
        Ok(Step::of(client, given))
    }

    /// The client connects, as by `connect`, and is changed in its place (3.2.4.4). What the call gives out is in `given`
    /// afterwards, whatever was there.
    ///
    /// # Errors
    ///
    /// `Memory` where there is none left. The client has forgotten all but its ClientGuid then, as a new one without files, and
    /// `given` has nothing of worth.
    pub fn connect_in_place(&mut self, given: &mut Given) -> Result<(), Memory>
        ensures step { OnOk result (IsAfter self.new given.new (connection_made (client_of self.old))) }
        ensures beliefs { OnOk result (NoneRose (client_of self.old) (client_of self.new)) }
        ensures forgotten { OnErr result (client_of self.new ≡ model.new_client (client_of self.old).guid 0) }
    {
        self.link(Link::Made, given)
    }

    fn link(&mut self, link: Link, given: &mut Given) -> Result<(), Memory>
        ensures step { OnOk result (IsAfter self.new given.new (linked (client_of self.old) link)) }
        ensures beliefs { OnOk result (NoneRose (client_of self.old) (client_of self.new)) }
        ensures forgotten { OnErr result (client_of self.new ≡ model.new_client (client_of self.old).guid 0) }
    {
        clients_are_sound();
        let guid = self.machine.guid();
        match self.machine.link(link, given) {
            Ok(()) => Ok(()),
            Err(fault) => {
                self.machine.forget(guid);
                Err(fault)
            }
        }
    }

    // What a call is passed that gives out something for the first time.
    fn nothing_given(&self) -> Given {
        Given::new(self.machine.alloc())
    }
}
