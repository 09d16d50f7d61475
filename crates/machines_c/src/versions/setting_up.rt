ghost use Rattle.std.specs.Prelude.{◌≡◌, ◌≢◌, None, IsSomeAnd};
ghost use Rattle.lease_versions.specs.Kept.{layer_of};
ghost use Rattle.lease_versions.specs.Layer as layer;

use crate::handles::Outcome;
use crate::versions::following::Following;
use crate::versions::handle::VersionsHandle;
use lease_versions::Versions;
use std::alloc::Global;

/// Where nothing is open and nothing was asked. What the handle held is freed.
///
/// Returns 0; 1 where there is no memory, and the handle is as it was.
#[unsafe(no_mangle)]
pub extern "C" fn smblease_versions_new(alloc: Global, versions: &mut VersionsHandle) -> u32
    ensures new { result ≡ 0 → IsSomeAnd versions.new.held (λ one. layer_of one.versions ≡ layer.nothing_known) }
    ensures no_memory { result ≢ 0 → (result ≡ 1) × (versions.new.held ≡ versions.old.held) }
{
    let made = Following {
        versions: Versions::new(alloc),
    };
    match Box::new(alloc, made) {
        Ok(following) => {
            versions.put(alloc, following);
            Outcome::Done.code()
        }
        Err(_) => Outcome::NoMemory.code(),
    }
}

/// Frees all that is known; the handle holds nothing then.
#[unsafe(no_mangle)]
pub extern "C" fn smblease_versions_free(alloc: Global, versions: &mut VersionsHandle)
    ensures { versions.new.held ≡ None }
{
    drop(versions.take(alloc));
}
