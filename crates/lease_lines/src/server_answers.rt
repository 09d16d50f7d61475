ghost use Rattle.std.specs.Prelude.{◌≡◌, ◌++◌, OnOk};
ghost use Rattle.std.specs.{List.flat_map, Option.option_map, String.string_bytes};
ghost use Rattle.lease_lines.specs.ServerAnswers.{out_line, answer, done_word, yes_word, fid_words, bytes_words};

use lease_facts::Fact;
use lease_state::FileId;
use lease_texts::{Said, digits_of, push_fact, push_line};
use share_server::Out;
use std::alloc::AllocError;

fn push_out(text: &mut String, given: Out) -> Result<(), AllocError>
    ensures { OnOk result (string_bytes text.new ≡ string_bytes text.old ++ out_line given) }
{
    match given {
        Out::Sent(client, told) => {
            push_line(text, "sent", &[Said::Client(client), Said::Reply(&told)])
        }
        Out::Opened(file, client) => push_fact(text, &Fact::Opened(file, client)),
        Out::Changed(file, client, number, patch) => {
            push_fact(text, &Fact::Changed(file, client, number, patch))
        }
    }
}

/// Adds the lines of what a call gives out.
pub fn push_outs(text: &mut String, outs: Vec<Out>) -> Result<(), AllocError>
    ensures { OnOk result (string_bytes text.new ≡ string_bytes text.old ++ flat_map out_line outs.items) }
{
    for given in outs {
        push_out(text, given)?;
    }
    Ok(())
}

/// Adds the answer to a call: whether it applied.
pub fn push_done(text: &mut String, applies: bool) -> Result<(), AllocError>
    ensures { OnOk result (string_bytes text.new ≡ string_bytes text.old ++ answer (done_word applies)) }
{
    text.push_str(if applies {
        "answer done\n"
    } else {
        "answer nothing\n"
    })
}

/// Adds the answer yes or no.
pub fn push_yes(text: &mut String, holds: bool) -> Result<(), AllocError>
    ensures { OnOk result (string_bytes text.new ≡ string_bytes text.old ++ answer (yes_word holds)) }
{
    text.push_str(if holds { "answer yes\n" } else { "answer no\n" })
}

/// Adds the answer of a FileId, or that there is none.
pub fn push_fid(text: &mut String, kept: Option<FileId>) -> Result<(), AllocError>
    ensures { OnOk result (string_bytes text.new
        ≡ string_bytes text.old ++ answer (fid_words (option_map (λ fid. fid.0) kept))) }
{
    match kept {
        Some(fid) => {
            let fid = fid.0;
            writeln!(text, "answer fid {fid}")
        }
        None => text.push_str("answer none\n"),
    }
}

/// Adds the answer of a file's bytes, or that there are none.
pub fn push_content(text: &mut String, content: Option<&[u8]>) -> Result<(), AllocError>
    ensures { OnOk result (string_bytes text.new
        ≡ string_bytes text.old ++ answer (bytes_words (option_map (λ bytes. bytes.now) content.entry))) }
{
    match content {
        Some(bytes) => {
            let digits = digits_of(*text.allocator(), bytes)?;
            writeln!(text, "answer bytes {digits}")
        }
        None => text.push_str("answer none\n"),
    }
}
