ghost use Rattle.std.specs.Prelude.{◌≡◌, ◌≢◌, IfSome, None};
ghost use Rattle.std.specs.Option.{option_map};
ghost use Rattle.lease_client.specs.Answers.{command_of};
ghost use Rattle.lease_model.specs.client.Commands as asked;
ghost use Rattle.machines_c.specs.handles.Outcomes.{IsCall};
ghost use Rattle.machines_c.specs.client.Asked.{open_asked, write_asked};
ghost use Rattle.machines_c.specs.client.Calls.{Commanded, MayBeLostBy};

use crate::client::handle::ClientHandle;
use crate::handles::{Outcome, access_of, copied, share_of};
use lease_client::Command;
use lease_state::{FileNo, LeaseState, Patch};
use std::alloc::Global;

/// How an application opens a file: `struct smblease_open_terms`.
#[repr(C)]
#[derive(Clone, Copy, Debug, PartialEq, Eq)]
pub struct ClientOpen {
    /// The lease's state that is wanted: the bits of LeaseState.
    pub want: u32,
    /// The number of the file.
    pub file: u8,
    /// 1 for reading, plus 2 for writing.
    pub access: u8,
    /// What other opens may do: 1 for reading, plus 2 for writing.
    pub share: u8,
    /// The open is to outlive its connection.
    pub durable: u8,
    /// Room for later versions, which is not looked at.
    pub reserved: [u8; 24],
}

impl ClientOpen {
    // The command, where the numbers of the access and the share stand for something.
    fn command(&self) -> Option<Command>
        ensures { option_map command_of result ≡ open_asked self.now }
    {
        match (access_of(self.access), share_of(self.share)) {
            (Some(access), Some(share)) => Some(Command::Open {
                file: FileNo(self.file),
                access,
                share,
                want: LeaseState::from_wire(self.want),
                durable: self.durable != 0,
            }),
            _ => None,
        }
    }
}

/// The application opens a file: one more handle on it.
///
/// Returns 0, and the answer of the client is to be read; 4 where the number of the access or of
/// the share stands for nothing, and nothing changed; 2 where memory ran out, and the machine is
/// lost, which is never where the command is refused; 3 where there is none.
#[unsafe(no_mangle)]
pub extern "C" fn smblease_client_open(
    alloc: Global,
    client: &mut ClientHandle,
    terms: &ClientOpen,
) -> u32
    ensures call { IfSome (open_asked terms.now) (λ command.
        IsCall (Commanded command) (MayBeLostBy command) result client.old.held client.new.held) }
    ensures number { open_asked terms.now ≡ None → (result ≡ 4) × (client.new.held ≡ client.old.held) }
{
    match terms.command() {
        Some(command) => client.app(alloc, command).code(),
        None => Outcome::NoSuch.code(),
    }
}

/// The application closes a file: one handle on it less.
///
/// Returns 0; 2 where memory ran out, and the machine is lost, which is never where the command is
/// refused; 3 where there is none.
#[unsafe(no_mangle)]
pub extern "C" fn smblease_client_close(alloc: Global, client: &mut ClientHandle, file: u8) -> u32
    ensures { IsCall (Commanded (asked.Command.Close file)) (MayBeLostBy (asked.Command.Close file))
        result client.old.held client.new.held }
{
    let file = FileNo(file);
    client.app(alloc, Command::Close { file }).code()
}

/// The application reads a whole file. The outcomes are those of `smblease_client_close`.
#[unsafe(no_mangle)]
pub extern "C" fn smblease_client_read(alloc: Global, client: &mut ClientHandle, file: u8) -> u32
    ensures { IsCall (Commanded (asked.Command.Read file)) (MayBeLostBy (asked.Command.Read file))
        result client.old.held client.new.held }
{
    let file = FileNo(file);
    client.app(alloc, Command::Read { file }).code()
}

/// The application has the buffered writes of a file sent. The outcomes are those of
/// `smblease_client_close`.
#[unsafe(no_mangle)]
pub extern "C" fn smblease_client_flush(alloc: Global, client: &mut ClientHandle, file: u8) -> u32
    ensures { IsCall (Commanded (asked.Command.Flush file)) (MayBeLostBy (asked.Command.Flush file))
        result client.old.held client.new.held }
{
    let file = FileNo(file);
    client.app(alloc, Command::Flush { file }).code()
}

/// The application writes bytes to a file from an offset on. They are copied.
///
/// Returns 0; 1 where there is no memory for the copy, and nothing changed; 2 where memory ran out
/// later, and the machine is lost, which is never where the command is refused; 3 where there is
/// none.
#[unsafe(no_mangle)]
pub extern "C" fn smblease_client_write(
    alloc: Global,
    client: &mut ClientHandle,
    file: u8,
    offset: u32,
    bytes: &[u8],
) -> u32
    ensures call { result ≢ 1 → IsCall (Commanded (write_asked file offset bytes.now))
        (MayBeLostBy (write_asked file offset bytes.now)) result client.old.held client.new.held }
    ensures unchanged { result ≡ 1 → client.new.held ≡ client.old.held }
{
    match copied(alloc, bytes) {
        Ok(bytes) => {
            let (file, patch) = (FileNo(file), Patch { offset, bytes });
            client.app(alloc, Command::Write { file, patch }).code()
        }
        Err(_) => Outcome::NoMemory.code(),
    }
}
