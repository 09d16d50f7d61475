ghost use Rattle.std.specs.Prelude.{◌≡◌, ◌++◌, [], true, IfOk, OnOk};
ghost use Rattle.std.specs.List.{flat_map};
ghost use Rattle.capture_texts.specs.records.Records.{are_lines, facts_in, tells, notes_told};
ghost use Rattle.capture_texts.specs.records.Records.{epoch_remark, file_remarks, lease_remark, lost_remark};

use crate::finding::{ClientFinding, EpochFinding, FileFinding, LeaseFinding, Report};
use crate::records::record::{RecordLine, push_remark};
use crate::texts::{push_counts, push_epoch, push_file, push_lease, push_lost};
use lease_state::Memory;
use std::alloc::Global;

fn push_leases(
    alloc: Global,
    lines: &mut Vec<RecordLine>,
    leases: &[LeaseFinding],
) -> Result<(), Memory>
    ensures facts { OnOk result (facts_in lines.new.items ≡ facts_in lines.old.items) }
    ensures lines { OnOk result (are_lines lines.new.items ≡ are_lines lines.old.items) }
    ensures told { OnOk result (tells lines.new.items ≡ tells lines.old.items ++ flat_map lease_remark leases.now) }
{
    for lease in leases {
        let mut remark = String::new(alloc);
        push_lease(alloc, &mut remark, lease)?;
        push_remark(lines, remark)?;
    }
    Ok(())
}

fn push_files(
    alloc: Global,
    lines: &mut Vec<RecordLine>,
    files: &[FileFinding],
) -> Result<(), Memory>
    ensures facts { OnOk result (facts_in lines.new.items ≡ facts_in lines.old.items) }
    ensures lines { OnOk result (are_lines lines.new.items ≡ are_lines lines.old.items) }
    ensures told { OnOk result (tells lines.new.items ≡ tells lines.old.items ++ flat_map file_remarks files.now) }
{
    for file in files {
        let mut remark = String::new(alloc);
        push_file(alloc, &mut remark, file)?;
        push_remark(lines, remark)?;
        push_leases(alloc, lines, file.leases.as_slice())?;
    }
    Ok(())
}

fn push_clients(
    alloc: Global,
    lines: &mut Vec<RecordLine>,
    clients: &[ClientFinding],
) -> Result<(), Memory>
    ensures facts { OnOk result (facts_in lines.new.items ≡ facts_in lines.old.items) }
    ensures lines { OnOk result (are_lines lines.new.items ≡ are_lines lines.old.items) }
    ensures told { OnOk result (tells lines.new.items ≡ tells lines.old.items ++ flat_map lost_remark clients.now) }
{
    for client in clients {
        let mut remark = String::new(alloc);
        push_lost(alloc, &mut remark, client)?;
        push_remark(lines, remark)?;
    }
    Ok(())
}

fn push_epochs(
    alloc: Global,
    lines: &mut Vec<RecordLine>,
    epochs: &[EpochFinding],
) -> Result<(), Memory>
    ensures facts { OnOk result (facts_in lines.new.items ≡ facts_in lines.old.items) }
    ensures lines { OnOk result (are_lines lines.new.items ≡ are_lines lines.old.items) }
    ensures told { OnOk result (tells lines.new.items ≡ tells lines.old.items ++ flat_map epoch_remark epochs.now) }
{
    for epoch in epochs {
        let mut remark = String::new(alloc);
        push_epoch(alloc, &mut remark, epoch)?;
        push_remark(lines, remark)?;
    }
    Ok(())
}

/// Remarks on what is found in a capture: of each file, of each client that isn't judged, of each epoch that doesn't follow on,
/// and how much there was.
///
/// # Errors
///
/// `Memory` where there is none left.
pub fn notes_of(alloc: Global, report: &Report) -> Result<Vec<RecordLine>, Memory>
    ensures facts { IfOk result (λ notes. facts_in notes.items ≡ []) }
    ensures lines { IfOk result (λ notes. are_lines notes.items ≡ true) }
    ensures told { IfOk result (λ notes. tells notes.items ≡ notes_told report.now) }
{
    let mut notes = Vec::new(alloc);
    push_files(alloc, &mut notes, report.files.as_slice())?;
    push_clients(alloc, &mut notes, report.clients.as_slice())?;
    push_epochs(alloc, &mut notes, report.epochs.as_slice())?;
    let mut counts = String::new(alloc);
    push_counts(&mut counts, report.counts)?;
    push_remark(&mut notes, counts)?;
    Ok(notes)
}
