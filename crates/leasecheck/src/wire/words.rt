ghost use Rattle.std.specs.Prelude.{◌≡◌, ◌++◌, List, length, OnOk, IfOk};
ghost use Rattle.std.specs.String.{string_bytes};
ghost use Rattle.std.specs.Option.{option_map};
ghost use Rattle.lease_wire.specs.Contexts.{view_of};
ghost use Rattle.lease_wire.specs.Views.{lease_of, values_of};
ghost use Rattle.leasecheck.specs.Words.{name_word, context_line, lease_lines, durable_lines, reconnect_lines, value_lines};

use lease_state::FileId;
use lease_texts::state_letters;
use lease_wire::{Context, ContextValues, Lease};
use std::alloc::{AllocError, Global};

// The digits of a name, or a hyphen where it is empty.
fn name_digits(alloc: Global, name: &[u8]) -> Result<String, AllocError>
    ensures { IfOk result (λ text. string_bytes text ≡ name_word name.now) }
{
    if name.is_empty() {
        String::from_str(alloc, "-")
    } else {
        hex::encode(alloc, name)
    }
}

/// A line for a create context.
pub(crate) fn push_context(
    alloc: Global,
    text: &mut String,
    context: &Context,
) -> Result<(), AllocError>
    ensures { OnOk result (string_bytes text.new ≡ string_bytes text.old ++ context_line (view_of context.now)) }
{
    let name = name_digits(alloc, context.name)?;
    let count = context.body.len();
    writeln!(text, "context {name} {count}")
}

fn push_lease(text: &mut String, lease: &Option<Lease>) -> Result<(), AllocError>
    ensures { OnOk result (string_bytes text.new ≡ string_bytes text.old ++ lease_lines (option_map lease_of lease.now)) }
{
    let Some(lease) = lease else {
        return Ok(());
    };
    let mut buffer = [0u8; 36];
    let key = lease.key.text(&mut buffer);
    let letters = state_letters(lease.state);
    let end = if lease.breaking { " breaking" } else { "" };
    writeln!(text, "lease {key} {letters}{end}")
}

fn push_durable(text: &mut String, durable: bool) -> Result<(), AllocError>
    ensures { OnOk result (string_bytes text.new ≡ string_bytes text.old ++ durable_lines durable) }
{
    if durable {
        text.push_str("durable\n")?;
    }
    Ok(())
}

fn push_reconnect(text: &mut String, reconnect: Option<FileId>) -> Result<(), AllocError>
    ensures { OnOk result (string_bytes text.new ≡ string_bytes text.old
        ++ reconnect_lines (option_map (λ file_id. file_id.0) reconnect)) }
{
    match reconnect {
        Some(file_id) => {
            let number = file_id.0;
            writeln!(text, "reconnect {number}")
        }
        None => Ok(()),
    }
}

/// A line for each part that is there, or `nothing`.
pub(crate) fn push_values(text: &mut String, values: &ContextValues) -> Result<(), AllocError>
    ensures { OnOk result (string_bytes text.new ≡ string_bytes text.old ++ value_lines (values_of values.now)) }
{
    let leased = values.lease.is_some();
    let reconnects = values.reconnect.is_some();
    if !(leased || (values.durable || reconnects)) {
        return text.push_str("nothing\n");
    }
    push_lease(text, &values.lease)?;
    push_durable(text, values.durable)?;
    push_reconnect(text, values.reconnect)
}
