ghost use Rattle.std.specs.Prelude.{◌≡◌, ◌≢◌, None, IsSomeAnd};
ghost use Rattle.client_versions.specs.Kept.{layer_of};
ghost use Rattle.client_versions.specs.Layer as layer;

use crate::handles::Outcome;
use crate::translation::handle::ClientVersionsHandle;
use crate::translation::translating::Translating;
use client_versions::ClientVersions;
use std::alloc::Global;

/// Where nothing is known. What the handle held is freed.
///
/// Returns 0; 1 where there is no memory, and the handle is as it was.
#[unsafe(no_mangle)]
pub extern "C" fn smblease_client_versions_new(
    alloc: Global,
    versions: &mut ClientVersionsHandle,
) -> u32
    ensures new { result ≡ 0 → IsSomeAnd versions.new.held (λ one. layer_of one.versions ≡ layer.nothing_known) }
    ensures no_memory { result ≢ 0 → (result ≡ 1) × (versions.new.held ≡ versions.old.held) }
{
    let made = Translating {
        versions: ClientVersions::new(alloc),
    };
    match Box::new(alloc, made) {
        Ok(translating) => {
            versions.put(alloc, translating);
            Outcome::Done.code()
        }
        Err(_) => Outcome::NoMemory.code(),
    }
}

/// Frees all that is known; the handle holds nothing then.
#[unsafe(no_mangle)]
pub extern "C" fn smblease_client_versions_free(alloc: Global, versions: &mut ClientVersionsHandle)
    ensures { versions.new.held ≡ None }
{
    drop(versions.take(alloc));
}
