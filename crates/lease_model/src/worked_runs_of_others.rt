ghost use Rattle.lease_model.specs.worked.RunsOfOthers.{TwoFilesHeld, StrayedClient};

/// Runs of requests that are held on two files, and of a client that strays: a request is sent in
/// its name that its machine didn't make.
pub fn runs_of_others()
    ensures two_files_held { TwoFilesHeld }
    ensures strayed { StrayedClient }
{}
