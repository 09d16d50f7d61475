//! The client machine of `lease_client`. A handle holds a client together with what the last call of it gave out.

pub mod answer;
pub mod calls;
pub mod commands;
pub mod handle;
pub mod note;
pub mod replies;
pub mod request;
pub mod stepping;
pub mod values;
