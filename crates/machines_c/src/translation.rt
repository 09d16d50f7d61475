//! What a client adds to its machine for leases and durable opens of version 2, by `client_versions`. A handle holds what is known
//! of them.

pub mod asking;
pub mod handle;
pub mod receiving;
pub mod setting_up;
pub mod translating;
