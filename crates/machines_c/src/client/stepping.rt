use lease_client::Step;

/// A client machine and what its last call gave out, with the status of the reply that it took then.
#[derive(Debug, Drop)]
pub struct Stepping {
    pub step: Step,
    /// The NTSTATUS of a reply that refuses, as it came; 0 where the last call took none.
    pub code: u32,
}
