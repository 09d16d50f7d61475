ghost use Rattle.std.specs.Prelude.{◌≡◌, OnOk};
ghost use Rattle.lease_manager.specs.GivingUp.{extent_of};
ghost use Rattle.lease_manager.specs.Outs.{handling_of};
ghost use Rattle.lease_manager.specs.Table.{server_of};
ghost use Rattle.lease_model.specs.server.GivingUp.{others_broken};
ghost use Rattle.manager_model.specs.Handling as rules;

use crate::outs::Outs;
use crate::requests::attempt::meet_all;
use crate::tables::Tables;
use crate::told::Told;
use crate::values::extent::Extent;
use crate::values::key::LeaseName;
use crate::values::number::{FileNo, Tag};
use lease_state::Memory;

/// The tag of what answers no request under a tag.
const NO_TAG: Tag = Tag(0);

/// What other keys on the file hold of it is broken, and their opens that wait for their clients are closed.
///
/// # Errors
///
/// `Memory` where there is none left.
pub fn break_others(
    tables: &mut Tables,
    told: &mut Told,
    own: Option<LeaseName>,
    file: FileNo,
    extent: Extent,
) -> Result<(), Memory>
    ensures { OnOk result (handling_of tables.new told.new
        ≡ rules.gone_on 0 (others_broken (server_of tables.old) own file.0 (extent_of extent))
        (rules.ends (others_broken (server_of tables.old) own file.0 (extent_of extent)).server
        (handling_of tables.old told.old))) }
{
    let mut outs = Outs::new(tables.alloc());
    let mut ended = tables.none_ended();
    let wants = tables.wants(extent.wish(), own, file)?;
    meet_all(tables, &mut outs, &mut ended, &wants)?;
    ended.tell(told)?;
    told.tell(NO_TAG, &outs)?;
    Ok(())
}
