use lease_versions::Versions;

/// What is known of leases and durable opens of version 2.
#[derive(Debug, Drop)]
pub struct Following {
    pub versions: Versions,
}
