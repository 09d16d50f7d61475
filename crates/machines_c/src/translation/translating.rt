use client_versions::ClientVersions;

/// What a client knows of leases and durable opens of version 2.
#[derive(Debug, Drop)]
pub struct Translating {
    pub versions: ClientVersions,
}
