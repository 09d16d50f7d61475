ghost use Rattle.std.specs.Prelude.{◌≡◌, ◌≤◌, ◌&&◌, nat_le, nat_lt, bytes_eq, [], None, IfOk, IsOk, OnOk, length, map};
ghost use Rattle.lease_client.specs.{Known.client_of, Steps.IsStep};
ghost use Rattle.lease_lines.specs.{ClientLines.call_of, ClientLines.client_place, Tables.clients_of, Refused.place_line};
ghost use Rattle.lease_lines.specs.ClientTables.{no_clients, with_new, with_files, with_client, line_told, or_fault};
ghost use Rattle.lease_lines.specs.ClientTables.{client_answered, HasStepped, HasAsked, IsAnswered, Takes};
ghost use Rattle.{std.specs.List.list_any, std.specs.String.string_bytes, lease_model.specs.client.Calls.client_called};

use crate::client_answers::push_step;
use crate::client_lines::{Asked, ClientLine, client_table, read_client_line};
use crate::refusals::Answer;
use lease_client::{Client, Step};
use lease_state::{ClientNo, Memory};
use lease_texts::{LineFault, is_passed_over};
use std::alloc::Global;
use std::mem;

// No more clients than there are numbers.
const CLIENTS: usize = 255;

/// Client machines, numbered from 1 in the order in which lines added them.
#[derive(Debug, Drop)]
pub struct ClientTable {
    files: Option<u8>,
    guids: Vec<[u8; 16]>,
    clients: Vec<Client>,
}

// Asks something of a client machine.
fn call(client: Client, asked: Asked) -> Result<Step, Memory>
    ensures { IfOk result (λ step. IsStep step (client_called (client_of client) (call_of asked))) }
{
    match asked {
        Asked::App(command) => client.app(command),
        Asked::Notice => client.notice(),
        Asked::Connect => client.connect(),
        Asked::Take(arrival) => client.take(arrival.reply),
    }
}

// Asks something of a client, adds what it answers, and gives the client after it.
fn step(number: ClientNo, client: Client, asked: Asked, text: &mut String) -> Result<Client, Memory>
    ensures { IfOk result
        (λ after. HasStepped number.0 asked (client_of client) (client_of after) (string_bytes text.old)
        (string_bytes text.new)) }
{
    let other = asked.other();
    let step = call(client, asked)?;
    Ok(push_step(text, number, other, step)?)
}

// Asks something of the client of a number, and adds what it answers.
fn ask(
    clients: &mut Vec<Client>,
    number: ClientNo,
    asked: Asked,
    text: &mut String,
) -> Result<(), Memory>
    requires inside { (1 ≤ number.0) × (number.0 ≤ length clients.old.items) }
    ensures { OnOk result (HasAsked number.0 asked (map client_of clients.old.items) (map client_of clients.new.items)
        (string_bytes text.old) (string_bytes text.new)) }
{
    let place = usize::from(number.0) - 1;
    let idle = Client::new(*text.allocator(), [0; 16], 0)?;
    let client = mem::replace(&mut clients[place], idle);
    clients[place] = step(number, client, asked, text)?;
    Ok(())
}

impl ClientTable {
    /// No clients yet, and no number of files for them.
    pub fn new(alloc: Global) -> ClientTable
        ensures { clients_of result ≡ no_clients }
    {
        ClientTable {
            files: None,
            guids: Vec::new(alloc),
            clients: Vec::new(alloc),
        }
    }

    fn has(&self, number: ClientNo) -> bool
        ensures { result ≡ (nat_le 1 number.0 && nat_le number.0 (length (clients_of self.now).clients)) }
    {
        1 <= number.0 && usize::from(number.0) <= self.clients.len()
    }

    fn set_files(&mut self, count: u8) -> bool
        ensures { Takes (with_files (clients_of self.old) count (clients_of self.old).files) result (clients_of self.old)
            (clients_of self.new) [] [] }
    {
        if self.files.is_some() {
            return false;
        }
        self.files = Some(count);
        true
    }

    fn has_guid(&self, guid: [u8; 16]) -> bool
        ensures { result ≡ list_any (λ one. bytes_eq one guid) (clients_of self.now).guids }
    {
        self.guids.iter().any(|one| *one == guid)
    }

    // Whether there is a number for one more client.
    fn has_room(&self) -> bool
        ensures { result ≡ nat_lt (length (clients_of self.now).clients) 255 }
    {
        self.clients.len() < CLIENTS
    }

    fn push_client(&mut self, alloc: Global, guid: [u8; 16], files: u8) -> Result<(), Memory>
        ensures { OnOk result (clients_of self.new ≡ with_new (clients_of self.old) guid files) }
    {
        self.guids.push(guid)?;
        self.clients.push(Client::new(alloc, guid, files)?)?;
        Ok(())
    }

    fn add_client(&mut self, alloc: Global, guid: [u8; 16]) -> Result<bool, Memory>
        ensures taken { IfOk result (λ taken. Takes (with_client (clients_of self.old) guid (clients_of self.old).files) taken
            (clients_of self.old) (clients_of self.new) [] []) }
        ensures refused { with_client (clients_of self.old) guid (clients_of self.old).files ≡ None → IsOk result }
    {
        let Some(files) = self.files else {
            return Ok(false);
        };
        if self.has_guid(guid) || !self.has_room() {
            return Ok(false);
        }
        self.push_client(alloc, guid, files)?;
        Ok(true)
    }

    #[tactic(auto, unfolding(crate::specs::ClientTables::line_told))]
    fn take_line(&mut self, line: ClientLine, text: &mut String) -> Result<bool, Memory>
        ensures taken { IfOk result
            (λ taken. Takes (line_told (clients_of self.old) line) taken (clients_of self.old) (clients_of self.new)
            (string_bytes text.old) (string_bytes text.new)) }
        ensures refused { line_told (clients_of self.old) line ≡ None → IsOk result }
    {
        match line {
            ClientLine::Files(count) => Ok(self.set_files(count)),
            ClientLine::Client(guid) => self.add_client(*text.allocator(), guid),
            ClientLine::Asks(number, asked) => {
                if !self.has(number) {
                    return Ok(false);
                }
                ask(&mut self.clients, number, asked, text)?;
                Ok(true)
            }
        }
    }

    // A line of this number that is one: where it may not stand there, it is refused.
    fn told(
        self,
        alloc: Global,
        number: u64,
        line: ClientLine,
    ) -> Result<(ClientTable, Answer), Memory>
        ensures { IfOk result (λ r. IsAnswered (or_fault (clients_of self) number (place_line number (client_place line))
            (line_told (clients_of self) line)) (clients_of r.0) r.1) }
    {
        let place = line.place();
        let mut table = self;
        let mut answer = Answer::nothing(alloc);
        if table.take_line(line, &mut answer.text)? {
            return Ok((table, answer));
        }
        Ok((table, Answer::misplaced(alloc, number, place)?))
    }

    /// A line of this number comes: the clients after it, and what it is answered.
    ///
    /// # Errors
    ///
    /// `Memory` where there is none left; the clients are lost then.
    #[tactic(auto, unfolding(crate::specs::ClientTables::client_answered))]
    pub fn answer(
        self,
        alloc: Global,
        number: u64,
        line: &[u8],
    ) -> Result<(ClientTable, Answer), Memory>
        ensures { IfOk result (λ r. IsAnswered (client_answered (clients_of self) number line.now) (clients_of r.0) r.1) }
    {
        if is_passed_over(line) {
            return Ok((self, Answer::nothing(alloc)));
        }
        match read_client_line(alloc, line) {
            Ok(told) => self.told(alloc, number, told),
            Err(LineFault::Refused) => {
                Ok((self, Answer::unread(alloc, client_table(), number, line)?))
            }
            Err(LineFault::Memory) => Err(Memory),
        }
    }
}
