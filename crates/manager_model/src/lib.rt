//! What a lease manager is: the server of the rules in `lease_model` without the bytes of its files. Public functions with an
//! empty body carry what is proved of it.
#![tactic(auto)]

mod laws;
mod worked;

pub use laws::{law_of_answers, law_of_bytes, law_of_ends, law_of_hosts, law_of_passes};
pub use worked::{
    managers_keep_opens, managers_tell_by_tags, managers_tell_what_ends,
    managers_tell_what_is_given_up, managers_tell_what_is_left, managers_withdraw,
};
