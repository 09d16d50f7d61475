ghost use Rattle.std.specs.Prelude.{IfErr, IfOk};
ghost use Rattle.leasecheck.specs.FileFaults.{FailsReading};
ghost use Rattle.leasecheck.specs.Known.{MayHave};

use crate::failure::Failure;
use std::alloc::Global;
use std::io::Read;

/// All that a reader gives.
///
/// # Errors
///
/// `File` where a read fails, and `Memory` where there is none left.
pub(crate) fn read_all<I: Read>(alloc: Global, input: &mut I) -> Result<Vec<u8>, Failure>
    ensures read { IfOk result (λ bytes. MayHave (I.remaining input.old) bytes.items) }
    ensures failed { IfErr result FailsReading }
{
    let mut bytes = Vec::new(alloc);
    match input.read_to_end(&mut bytes) {
        Ok(_) => Ok(bytes),
        Err(error) => Err(Failure::of_reading(error.kind())),
    }
}
