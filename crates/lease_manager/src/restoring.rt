ghost use Rattle.std.specs.Prelude.{◌≡◌, [], IfErr, IfOk, IsOk, OnOk};
ghost use Rattle.lease_manager.specs.Always.{IsManager};
ghost use Rattle.lease_manager.specs.Restarting.{MayBeRestored, kept_manager};
ghost use Rattle.lease_manager.specs.Table.{manager_of};
ghost use Rattle.lease_manager.specs.declared.values.restore_error.RestoreError.TheVariants as errors;

use crate::keeping::first_tables;
use crate::tables::Tables;
use crate::values::kept::KeptOpen;
use crate::values::number::FileNo;
use crate::values::restore_error::RestoreError;
use lease_state::{FileId, Rules};
use std::alloc::Global;

/// The tables of a manager of these rules and files that has these opens, all of which wait for their clients, where this FileId
/// was given last.
///
/// # Errors
///
/// `Unlawful` where a law would be broken. `Memory` where there is none left, and never for no opens.
pub fn restored(
    alloc: Global,
    rules: Rules,
    files: FileNo,
    last: FileId,
    kept: &[KeptOpen],
) -> Result<Tables, RestoreError>
    ensures made { IfOk result (λ tables. manager_of tables ≡ kept_manager rules files.0 last.0 kept.now) }
    ensures may { OnOk result (MayBeRestored rules files.0 last.0 kept.now) }
    ensures lawful { IfOk result (λ tables. IsManager tables) }
    ensures free { kept.now ≡ [] → IsOk result }
    ensures refused { IfErr result (λ error. error ≡ errors.Unlawful → MayBeRestored rules files.0 last.0 kept.now → ⊥) }
{
    let mut tables = first_tables(alloc, rules, files);
    for one in kept {
        tables.restore(last, *one)?;
    }
    tables.raise_last_id(last);
    Ok(tables)
}
