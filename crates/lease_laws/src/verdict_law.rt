ghost use Rattle.lease_laws.specs.records.Verdicts.{VerdictDecides, VerdictTells};

/// For every record, the verdict is Safe exactly where the record is safe. Otherwise the verdict
/// names the first bad place, and what is wrong there: all before that place is safe, and nothing
/// that is checked before is wrong there.
pub fn verdict_decides()
    ensures decides { VerdictDecides }
    ensures tells { VerdictTells }
{}
