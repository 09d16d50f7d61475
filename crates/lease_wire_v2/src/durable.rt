ghost use Rattle.std.specs.Prelude.{◌≡◌, ◌<◌, ◌^◌, ◌++◌};
ghost use Rattle.byteorder.specs.Endian.{little_bytes};
ghost use Rattle.capture_wire.specs.Contexts.{IsDurableRequestV2, IsDurableResponseV2, IsDurableReconnectV2};
ghost use Rattle.lease_wire_v2.specs.DurableData.{persistent_flag, durable_of, durable_bytes, grant_of, grant_bytes};
ghost use Rattle.lease_wire_v2.specs.DurableData.{reconnect_of, reconnect_bytes, DurableReadsBack, DurableWritesBack};
ghost use Rattle.lease_wire_v2.specs.DurableData.{GrantReadsBack, GrantWritesBack, ReconnectReadsBack, ReconnectWritesBack};

use byteorder::{ByteOrder, LittleEndian};
use capture_wire::{DurableReconnectV2, DurableRequestV2, DurableResponseV2, Smb2FileId};

// SMB2_DHANDLE_FLAG_PERSISTENT
const PERSISTENT: u32 = 2;

fn flags(persistent: bool) -> u32
    ensures { result ≡ persistent_flag persistent }
{
    if persistent { PERSISTENT } else { 0 }
}

/// SMB2_FILEID (MS-SMB2 2.2.14.1): Persistent, then Volatile.
pub(crate) fn file_id_bytes(file_id: Smb2FileId) -> [u8; 16]
    ensures bytes { result ≡ little_bytes 8 file_id.persistent ++ little_bytes 8 file_id.volatile }
    ensures fits { (file_id.persistent < 2 ^ 64) × (file_id.volatile < 2 ^ 64) }
{
    let mut bytes = [0u8; 16];
    LittleEndian::write_u64(&mut bytes[0..], file_id.persistent);
    LittleEndian::write_u64(&mut bytes[8..], file_id.volatile);
    bytes
}

/// The data of a `DH2Q` context of a request (MS-SMB2 2.2.13.2.11), as their 32 bytes. Reserved is 0.
/// `capture_wire::read_durable_request_v2` reads the value back.
pub fn encode_durable_request_v2(durable: &DurableRequestV2) -> [u8; 32]
    ensures text { result ≡ durable_bytes (durable_of durable.now) }
    ensures layout { IsDurableRequestV2 result durable.now }
{
    let DurableRequestV2 {
        timeout,
        persistent,
        create_guid,
    } = *durable;
    let mut bytes = [0u8; 32];
    LittleEndian::write_u32(&mut bytes[0..], timeout);
    LittleEndian::write_u32(&mut bytes[4..], flags(persistent));
    bytes[16..].copy_from_slice(&create_guid.0);
    bytes
}

/// The data of a `DH2Q` context of a response (MS-SMB2 2.2.14.2.12), as their 8 bytes.
/// `capture_wire::read_durable_response_v2` reads the value back.
pub fn encode_durable_response_v2(durable: &DurableResponseV2) -> [u8; 8]
    ensures text { result ≡ grant_bytes (grant_of durable.now) }
    ensures layout { IsDurableResponseV2 result durable.now }
{
    let DurableResponseV2 {
        timeout,
        persistent,
    } = *durable;
    let mut bytes = [0u8; 8];
    LittleEndian::write_u32(&mut bytes[0..], timeout);
    LittleEndian::write_u32(&mut bytes[4..], flags(persistent));
    bytes
}

/// The data of a `DH2C` context (MS-SMB2 2.2.13.2.12), as their 36 bytes. `capture_wire::read_durable_reconnect_v2` reads the
/// value back.
pub fn encode_durable_reconnect_v2(reconnect: &DurableReconnectV2) -> [u8; 36]
    ensures text { result ≡ reconnect_bytes (reconnect_of reconnect.now) }
    ensures layout { IsDurableReconnectV2 result reconnect.now }
{
    let DurableReconnectV2 {
        file_id,
        create_guid,
        persistent,
    } = *reconnect;
    let mut bytes = [0u8; 36];
    LittleEndian::write_u32(&mut bytes[32..], flags(persistent));
    bytes[..16].copy_from_slice(&file_id_bytes(file_id));
    bytes[16..32].copy_from_slice(&create_guid.0);
    bytes
}

/// Laws of the data of durable opens: what is written is read back, and what is read of data whose free fields are 0 is
/// written back. Does nothing.
pub fn durable_laws()
    ensures request_reads_back { DurableReadsBack }
    ensures request_writes_back { DurableWritesBack }
    ensures response_reads_back { GrantReadsBack }
    ensures response_writes_back { GrantWritesBack }
    ensures reconnect_reads_back { ReconnectReadsBack }
    ensures reconnect_writes_back { ReconnectWritesBack }
{}
