ghost use Rattle.std.specs.Prelude.{◌≡◌, ◌≢◌, ◌≤◌, ◌<◌, ◌++◌, ◌∷◌, [], length, Some, None, IfOk, IfNone, IfSome, OnOk, OnErr, IsSomeAnd};
ghost use Rattle.machines_c.specs.handles.Outcomes.{code_of};
ghost use Rattle.machines_c.specs.handles.Rules.{rules_given};
ghost use Rattle.lease_model.specs.server.State.{new_server, new_server_under};
ghost use Rattle.share_server.specs.Table.{server_of};
ghost use Rattle.machines_c.specs.server.Served.{running, files_in};

use crate::handles::{Outcome, rules_of};
use crate::server::files::{Files, FilesHandle};
use crate::server::handle::{Hosted, ServerHandle};
use lease_state::{Content, FILE_LIMIT, Memory, Rules};
use share_server::Server;
use std::alloc::Global;

const MOST_FILES: usize = 255;

// A content of its own with these bytes.
fn content_of(alloc: Global, bytes: &[u8]) -> Result<Content, Memory>
    requires { length bytes.now ≤ FILE_LIMIT }
    ensures { IfOk result (λ content. content ≡ bytes.now) }
{
    match Content::new(Vec::from_slice(alloc, bytes)?) {
        Ok(content) => Ok(content),
        Err(_) => Err(Memory),
    }
}

// The files with one more.
fn added(alloc: Global, files: &mut Files, bytes: &[u8]) -> Result<(), Memory>
    requires { length bytes.now ≤ FILE_LIMIT }
    ensures ok { OnOk result (files.new.contents.items ≡ files.old.contents.items ++ (bytes.now ∷ [])) }
    ensures err { OnErr result (files.new.contents.items ≡ files.old.contents.items) }
{
    let content = content_of(alloc, bytes)?;
    files.contents.push(content)?;
    Ok(())
}

// The files that are held, or a box for the first one.
fn taken(alloc: Global, files: &mut FilesHandle) -> Result<Box<Files>, Memory>
    ensures ok { IfOk result (λ taken. (taken.value.contents.items ≡ files_in files.old.held) × (files.new.held ≡ None)) }
    ensures err { OnErr result ((files.old.held ≡ None) × (files.new.held ≡ None)) }
{
    match files.take(alloc) {
        Some(files) => Ok(files),
        None => Ok(Box::new(
            alloc,
            Files {
                contents: Vec::new(alloc),
            },
        )?),
    }
}

// Adds a content, where there may be one more.
fn add_to(alloc: Global, files: &mut Files, bytes: &[u8]) -> Outcome
    requires { length bytes.now ≤ FILE_LIMIT }
    ensures added { code_of result ≡ 0 → files.new.contents.items ≡ files.old.contents.items ++ (bytes.now ∷ []) }
    ensures unchanged { code_of result ≢ 0 → files.new.contents.items ≡ files.old.contents.items }
    ensures too_many { 255 ≤ length files.old.contents.items → code_of result ≡ 4 }
    ensures within { length files.old.contents.items < 255 → code_of result ≤ 1 }
{
    if files.contents.len() >= MOST_FILES {
        return Outcome::NoSuch;
    }
    match added(alloc, files, bytes) {
        Ok(()) => Outcome::Done,
        Err(_) => Outcome::NoMemory,
    }
}

/// One more file for a server to begin with, with a copy of these bytes. The first has number 1.
///
/// Returns 0; 1 where there is no memory; 4 where there are more than 1,048,576 bytes, or 255 files
/// already. After 1 and 4 the files are as they were.
#[unsafe(no_mangle)]
pub extern "C" fn smblease_files_add(alloc: Global, files: &mut FilesHandle, bytes: &[u8]) -> u32
    ensures added { result ≡ 0 → files_in files.new.held ≡ files_in files.old.held ++ (bytes.now ∷ []) }
    ensures unchanged { result ≢ 0 → files_in files.new.held ≡ files_in files.old.held }
    ensures too_long { FILE_LIMIT < length bytes.now → result ≡ 4 }
    ensures too_many { 255 ≤ length (files_in files.old.held) → result ≡ 4 }
    ensures within { length bytes.now ≤ FILE_LIMIT → length (files_in files.old.held) < 255 → result ≤ 1 }
{
    if bytes.len() > FILE_LIMIT {
        return Outcome::NoSuch.code();
    }
    match taken(alloc, files) {
        Ok(mut held) => {
            let outcome = add_to(alloc, &mut held, bytes);
            files.put(alloc, held);
            outcome.code()
        }
        Err(_) => Outcome::NoMemory.code(),
    }
}

/// Frees the files; the handle holds none then.
#[unsafe(no_mangle)]
pub extern "C" fn smblease_files_free(alloc: Global, files: &mut FilesHandle)
    ensures { files.new.held ≡ None }
{
    drop(files.take(alloc));
}

// The files that are held.
fn contents_of(alloc: Global, files: &mut FilesHandle) -> Vec<Content>
    ensures files { result.items ≡ files_in files.old.held }
    ensures none { files.new.held ≡ None }
{
    match files.take(alloc) {
        None => Vec::new(alloc),
        Some(files) => {
            let Files { contents } = Box::into_inner(files);
            contents
        }
    }
}

// A server of these rules with these files, in a box.
fn hosted(alloc: Global, rules: Rules, contents: Vec<Content>) -> Result<Box<Hosted>, Memory>
    ensures { IfOk result (λ hosted. IsSomeAnd (running (Some hosted.value))
        (λ one. (server_of one.server ≡ new_server_under rules contents.items) × (one.outs ≡ []))) }
{
    let server = Some(Server::with_rules(alloc, rules, contents)?);
    let outs = Vec::new(alloc);
    Ok(Box::new(alloc, Hosted { server, outs })?)
}

// Begins a server of these rules with these files.
fn begin(alloc: Global, rules: Rules, server: &mut ServerHandle, files: &mut FilesHandle) -> Outcome
    ensures new { code_of result ≡ 0 → IsSomeAnd (running server.new.held)
        (λ one. (server_of one.server ≡ new_server_under rules (files_in files.old.held)) × (one.outs ≡ [])) }
    ensures unchanged { code_of result ≢ 0 → (code_of result ≡ 2) × (server.new.held ≡ server.old.held) }
    ensures files { files.new.held ≡ None }
{
    match hosted(alloc, rules, contents_of(alloc, files)) {
        Ok(one) => {
            server.put(alloc, one);
            Outcome::Done
        }
        Err(_) => Outcome::Lost,
    }
}

/// A server with these files, that no client has joined; the files' handle holds none then. What the
/// server's handle held is freed.
///
/// Returns 0; 2 where memory ran out, and the files are lost. Then the server's handle is as it
/// was.
#[unsafe(no_mangle)]
pub extern "C" fn smblease_server_new(
    alloc: Global,
    server: &mut ServerHandle,
    files: &mut FilesHandle,
) -> u32
    ensures new { result ≡ 0 → IsSomeAnd (running server.new.held)
        (λ one. (server_of one.server ≡ new_server (files_in files.old.held)) × (one.outs ≡ [])) }
    ensures unchanged { result ≢ 0 → (result ≡ 2) × (server.new.held ≡ server.old.held) }
    ensures files { files.new.held ≡ None }
{
    begin(alloc, Rules::profile(), server, files).code()
}

/// A server as by `smblease_server_new`, of other rules than the profile's: an order of requests, 0 by
/// client or 1 by key, and how a lease rises, 0 as far as is free or 1 whole.
///
/// Returns 0; 2 where memory ran out, and the files are lost; 4 where a number stands for no rule, and
/// nothing changed. After 2 the server's handle is as it was.
#[unsafe(no_mangle)]
pub extern "C" fn smblease_server_new_with_rules(
    alloc: Global,
    server: &mut ServerHandle,
    files: &mut FilesHandle,
    order: u32,
    rise: u32,
) -> u32
    ensures new { IfSome (rules_given order rise) (λ rules. result ≡ 0 → IsSomeAnd (running server.new.held)
        (λ one. (server_of one.server ≡ new_server_under rules (files_in files.old.held)) × (one.outs ≡ []))) }
    ensures lost { IfSome (rules_given order rise) (λ rules. result ≢ 0 → (result ≡ 2) × (server.new.held ≡ server.old.held)) }
    ensures files { IfSome (rules_given order rise) (λ rules. files.new.held ≡ None) }
    ensures no_such { IfNone (rules_given order rise)
        ((result ≡ 4) × (server.new.held ≡ server.old.held) × (files.new.held ≡ files.old.held)) }
{
    match rules_of(order, rise) {
        Some(rules) => begin(alloc, rules, server, files).code(),
        None => Outcome::NoSuch.code(),
    }
}

/// Frees the server and what its last call gave out; the handle holds none then.
#[unsafe(no_mangle)]
pub extern "C" fn smblease_server_free(alloc: Global, server: &mut ServerHandle)
    ensures { server.new.held ≡ None }
{
    drop(server.take(alloc));
}
