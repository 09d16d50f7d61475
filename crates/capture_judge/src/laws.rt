ghost use Rattle.capture_judge.specs.Verdicts.{VerdictsAgree};

/// Two verdicts that are right of the same chains agree, unless one of them is that there are too many ways: so each comes
/// exactly where it is right. Does nothing.
pub fn verdicts_agree()
    ensures { VerdictsAgree }
{}
