ghost use Rattle.std.specs.Prelude.{◌≡◌};
ghost use Rattle.lease_reasons.specs.Places.{past_of};
ghost use Rattle.lease_reasons.specs.Searches.{late_write, false_done};

use crate::marks::Mark;
use crate::reason::Reason;
use lease_facts::Fact;
use lease_state::{ClientNo, FileNo};

/// Why the change of a file by the client's write of this number comes late, if it does.
pub fn late_write(facts: &[Fact], client: ClientNo, file: FileNo, number: u64) -> Option<Reason>
    ensures { result ≡ late_write client file number (past_of facts.now) }
{
    let wrote = Mark::Buffering(client, file, number).first(facts, 0)?;
    let touched = Mark::Touch(client, file).first(facts, wrote)?;
    Some(Reason::LateWrite {
        client,
        file,
        number,
        wrote,
        touched,
    })
}

/// What is known of the client's write of this number, which wasn't accepted.
pub fn false_done(facts: &[Fact], client: ClientNo, number: u64) -> Reason
    ensures { result ≡ false_done client number (past_of facts.now) }
{
    Reason::FalseDone {
        client,
        number,
        wrote: Mark::Write(client, number).last(facts),
        changed: Mark::ChangeBy(client, number).last(facts),
    }
}
