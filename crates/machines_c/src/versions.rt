//! What leases and durable opens of version 2 carry, by `lease_versions`. A handle holds what is known of them; it follows the
//! decisions of a manager that another handle holds.

pub mod creates;
pub mod following;
pub mod handle;
pub mod messages;
pub mod requests;
pub mod setting_up;
