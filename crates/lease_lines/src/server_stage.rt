ghost use Rattle.std.specs.Prelude.{◌≡◌, ◌++◌, [], None, IfOk, IsOk, OnOk};
ghost use Rattle.lease_model.specs.server.{Progress.Progress, Calls.called};
ghost use Rattle.lease_lines.specs.{ClientTables.IsAnswered, ClientTables.Takes, ClientTables.or_fault, Refused.place_line};
ghost use Rattle.lease_lines.specs.{ServerAnswers.answer, ServerLines.call_of, ServerLines.server_place, Tables.stage_of};
ghost use Rattle.lease_lines.specs.ServerTables.{after_call, applies, found, server_in, with_file, with_rules, line_told};
ghost use Rattle.lease_lines.specs.ServerTables.{server_answered};
ghost use Rattle.{std.specs.String.string_bytes, share_server.specs.Outs.IsAfter, share_server.specs.Table.server_of};
ghost use Rattle.lease_lines.specs.ServerTables as tables;

use crate::refusals::Answer;
use crate::server_answers::{push_content, push_done, push_fid, push_outs, push_yes};
use crate::server_lines::{Query, ServerCall, ServerLine, read_server_line, server_table};
use lease_state::{Content, Memory, Rules};
use lease_texts::{LineFault, is_passed_over};
use share_server::{Out, Server};
use std::alloc::{AllocError, Global};

// No more files than there are numbers.
const FILES: usize = 255;

/// A server whose rules and files are given first; it begins with the first other line.
#[derive(Debug, Drop)]
pub enum Stage {
    /// Nothing is given yet.
    Fresh,
    /// These rules, and files.
    Filling(Rules, Vec<Content>),
    Serving(Server),
}

// Adds what a call gives out, and whether it applied.
fn push_after(text: &mut String, applies: bool, after: (Server, Vec<Out>)) -> Result<Server, Memory>
    ensures { IfOk result (λ server. (progress : Progress) → IsAfter after.0 after.1.items progress
        → (server_of server ≡ progress.server)
        × (string_bytes text.new ≡ string_bytes text.old ++ (after_call applies progress).text)) }
{
    let (server, outs) = after;
    push_outs(text, outs)?;
    push_done(text, applies)?;
    Ok(server)
}

// Whether a call changes anything.
fn applies(server: &Server, call: &ServerCall) -> bool
    ensures { result ≡ applies (server_of server.now) call.now }
{
    match call {
        ServerCall::Join(client) => !server.is_connected(*client),
        ServerCall::Cut(client) | ServerCall::Receive(client, _) => server.is_connected(*client),
        ServerCall::Expire(client, key) => server.breaking(*client, *key),
        ServerCall::Scavenge(fid) => server.has_left_behind(*fid),
    }
}

fn call(server: Server, asked: ServerCall) -> Result<(Server, Vec<Out>), Memory>
    ensures { IfOk result (λ r. IsAfter r.0 r.1.items (called (server_of server) (call_of asked))) }
{
    match asked {
        ServerCall::Join(client) => server.join(client),
        ServerCall::Cut(client) => server.cut(client),
        ServerCall::Expire(client, key) => server.expire(client, key),
        ServerCall::Scavenge(fid) => server.scavenge(fid),
        ServerCall::Receive(client, request) => server.receive(client, request),
    }
}

fn push_found(text: &mut String, server: &Server, query: Query) -> Result<(), AllocError>
    ensures { OnOk result (string_bytes text.new ≡ string_bytes text.old ++ answer (found (server_of server.now) query)) }
{
    match query {
        Query::Breaking(client, key) => push_yes(text, server.breaking(client, key)),
        Query::Kept(client, file) => push_fid(text, server.kept(client, file)),
        Query::Content(file) => push_content(text, server.content(file)),
    }
}

impl Stage {
    // The server, which begins where it hasn't.
    fn into_server(self, alloc: Global) -> Result<Server, Memory>
        ensures { IfOk result (λ server. server_of server ≡ server_in (stage_of self)) }
    {
        match self {
            Stage::Fresh => Server::new(alloc, Vec::new(alloc)),
            Stage::Filling(rules, files) => Server::with_rules(alloc, rules, files),
            Stage::Serving(server) => Ok(server),
        }
    }

    // These rules; not where something was given before.
    fn set_rules(self, alloc: Global, rules: Rules) -> (Stage, bool)
        ensures { Takes (with_rules (stage_of self) rules) result.1 (stage_of self) (stage_of result.0) [] [] }
    {
        match self {
            Stage::Fresh => (Stage::Filling(rules, Vec::new(alloc)), true),
            other => (other, false),
        }
    }

    // One more file; none where the server has begun, or there is no number for it.
    fn add_file(self, alloc: Global, content: Content) -> Result<(Stage, bool), Memory>
        ensures taken { IfOk result
            (λ r. Takes (with_file (stage_of self) content) r.1 (stage_of self) (stage_of r.0) [] []) }
        ensures refused { with_file (stage_of self) content ≡ None → IsOk result }
    {
        match self {
            Stage::Fresh => {
                let mut files = Vec::new(alloc);
                files.push(content)?;
                Ok((Stage::Filling(Rules::profile(), files), true))
            }
            Stage::Filling(rules, mut files) => {
                if files.len() >= FILES {
                    return Ok((Stage::Filling(rules, files), false));
                }
                files.push(content)?;
                Ok((Stage::Filling(rules, files), true))
            }
            Stage::Serving(server) => Ok((Stage::Serving(server), false)),
        }
    }

    #[tactic(auto, unfolding(crate::specs::ServerTables::line_told))]
    fn take_line(self, line: ServerLine, text: &mut String) -> Result<(Stage, bool), Memory>
        ensures taken { IfOk result (λ r. Takes (line_told (stage_of self) line) r.1 (stage_of self) (stage_of r.0)
            (string_bytes text.old) (string_bytes text.new)) }
        ensures refused { line_told (stage_of self) line ≡ None → IsOk result }
    {
        match line {
            ServerLine::Rules(rules) => Ok(self.set_rules(*text.allocator(), rules)),
            ServerLine::File(content) => self.add_file(*text.allocator(), content),
            ServerLine::Call(asked) => {
                let server = self.into_server(*text.allocator())?;
                let applies = applies(&server, &asked);
                let server = push_after(text, applies, call(server, asked)?)?;
                Ok((Stage::Serving(server), true))
            }
            ServerLine::Query(query) => {
                let server = self.into_server(*text.allocator())?;
                push_found(text, &server, query)?;
                Ok((Stage::Serving(server), true))
            }
        }
    }

    // A line of this number that is one: where it may not stand there, it is refused.
    fn told(self, alloc: Global, number: u64, line: ServerLine) -> Result<(Stage, Answer), Memory>
        ensures { IfOk result (λ r. IsAnswered (or_fault (stage_of self) number (place_line number (server_place line))
            (line_told (stage_of self) line)) (stage_of r.0) r.1) }
    {
        let place = line.place();
        let mut answer = Answer::nothing(alloc);
        let (stage, taken) = self.take_line(line, &mut answer.text)?;
        if taken {
            return Ok((stage, answer));
        }
        Ok((stage, Answer::misplaced(alloc, number, place)?))
    }

    /// A line of this number comes: the server after it, and what it is answered.
    ///
    /// # Errors
    ///
    /// `Memory` where there is none left; the server is lost then.
    #[tactic(auto, unfolding(crate::specs::ServerTables::server_answered))]
    pub fn answer(self, alloc: Global, number: u64, line: &[u8]) -> Result<(Stage, Answer), Memory>
        ensures { IfOk result (λ r. IsAnswered (server_answered (stage_of self) number line.now) (stage_of r.0) r.1) }
    {
        if is_passed_over(line) {
            return Ok((self, Answer::nothing(alloc)));
        }
        match read_server_line(alloc, line) {
            Ok(told) => self.told(alloc, number, told),
            Err(LineFault::Refused) => {
                Ok((self, Answer::unread(alloc, server_table(), number, line)?))
            }
            Err(LineFault::Memory) => Err(Memory),
        }
    }
}
