ghost use Rattle.std.specs.Prelude.{◌≡◌, [], true, false, IsOk, OnErr, OnOk};
ghost use Rattle.lease_manager.specs.Always.{IsManager};
ghost use Rattle.lease_manager.specs.Coming.{applies, handled};
ghost use Rattle.lease_manager.specs.LeftOpens.{numbers};
ghost use Rattle.lease_manager.specs.Outs.{handling_of};
ghost use Rattle.lease_manager.specs.Parting.{tag_numbers};
ghost use Rattle.lease_manager.specs.Table.{manager_of, server_of};
ghost use Rattle.manager_model.specs.Handling as rules;
ghost use Rattle.manager_model.specs.Hosting.{fresh_manager};

use crate::calls;
use crate::tables::Tables;
use crate::told::Told;
use crate::values::coming::Coming;
use crate::values::number::{ClientNo, FileNo, Tag};
use lease_state::{FileId, Memory, Rules};
use std::alloc::Global;

/// The tables of a manager of these rules, where this is the last number of a file and nothing is open. Allocates nothing.
pub fn first_tables(alloc: Global, rules: Rules, files: FileNo) -> Tables
    ensures first { manager_of result ≡ fresh_manager rules files.0 }
    ensures lawful { IsManager result }
{
    Tables::new(alloc, rules, files)
}

/// Something comes whose decisions a host has to carry out, and the laws stay.
///
/// # Errors
///
/// `Memory` where there is none left.
pub fn handle(tables: &mut Tables, told: &mut Told, coming: Coming) -> Result<(), Memory>
    requires none_told { told.old ≡ [] }
    requires lawful { IsManager tables.old }
    ensures step { OnOk result (handling_of tables.new told.new ≡ handled coming (manager_of tables.old)) }
    ensures lawful { OnOk result (IsManager tables.new) }
    ensures idle { applies coming tables.old ≡ false → IsOk result }
{
    calls::handle(tables, told, coming)
}

/// A client connects, and the laws stay.
///
/// # Errors
///
/// `Memory` where there is none left.
pub fn join(tables: &mut Tables, client: ClientNo) -> Result<(), Memory>
    requires { IsManager tables.old }
    ensures step { OnOk result (handling_of tables.new [] ≡ rules.join (manager_of tables.old) client.0) }
    ensures lawful { OnOk result (IsManager tables.new) }
    ensures idle { (server_of tables.old).present client.0 ≡ true → IsOk result }
{
    calls::join(tables, client)
}

/// A client leaves some of its opens, and requests that wait, and the laws stay.
///
/// # Errors
///
/// `Memory` where there is none left.
pub fn leave(
    tables: &mut Tables,
    told: &mut Told,
    client: ClientNo,
    file_ids: &[FileId],
    tags: &[Tag],
) -> Result<(), Memory>
    requires none_told { told.old ≡ [] }
    requires lawful { IsManager tables.old }
    ensures step { OnOk result (handling_of tables.new told.new
        ≡ rules.leave (manager_of tables.old) client.0 (numbers file_ids.now) (tag_numbers tags.now)) }
    ensures lawful { OnOk result (IsManager tables.new) }
    ensures idle { (server_of tables.old).present client.0 ≡ false → IsOk result }
{
    calls::leave(tables, told, client, file_ids, tags)
}

/// A call came to this. Where memory ran out all is forgotten but the rules and the last number of a file, which are these.
///
/// # Errors
///
/// What the call came to.
pub fn ended(
    tables: &mut Tables,
    came: Result<(), Memory>,
    rules: Rules,
    files: FileNo,
) -> Result<(), Memory>
    requires { OnOk came (IsManager tables.old) }
    ensures same { result ≡ came }
    ensures kept { OnOk came (tables.new ≡ tables.old) }
    ensures forgotten { OnErr came (manager_of tables.new ≡ fresh_manager rules files.0) }
    ensures lawful { IsManager tables.new }
{
    match came {
        Ok(()) => Ok(()),
        Err(Memory) => {
            *tables = first_tables(tables.alloc(), rules, files);
            Err(Memory)
        }
    }
}
