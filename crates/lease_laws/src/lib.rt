//! What is true of the definitions of servers, clients, records and messages: public functions with an
//! empty body whose contracts carry the laws.
#![tactic(auto)]

mod client_laws;
mod enough_laws;
mod from_bytes;
mod past_laws;
mod refusal_laws;
mod server_laws;
mod step_laws;
mod verdict_law;
mod world_laws;

pub use client_laws::clients_are_sound;
pub use enough_laws::rounds_and_passes_end;
pub use from_bytes::{bytes_laws, machines_write_bytes, written_is_read};
pub use past_laws::{contents_of_runs, writes_of_runs};
pub use refusal_laws::refusals_leave_files_alone;
pub use server_laws::{
    durable_opens_are_answered, laws_of_servers, others_give_up, outs_of_calls, waiting_of_servers,
    waits_of_tries, wants_are_exact,
};
pub use step_laws::{breaks_of_steps, calls_go_by_steps, outs_reach_and_fit};
pub use verdict_law::verdict_decides;
pub use world_laws::runs_are_lawful;
