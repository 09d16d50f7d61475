//! What a server of SMB 2.1 leases, its clients and the world round them do: definitions, and
//! public functions with an empty body whose contracts are worked examples that the checker computes.
#![tactic(auto)]

mod worked_client;
mod worked_rules;
mod worked_runs_of_asking;
mod worked_runs_of_breaks;
mod worked_runs_of_cuts;
mod worked_runs_of_others;
mod worked_runs_of_reads;
mod worked_runs_of_writes;
mod worked_server;
mod worked_setups;
mod worked_verdicts;

pub use worked_client::{
    client_asks_for_more, client_never_connected, client_of_one_file,
    client_passes_long_reads_over, client_refusals, client_takes_replies,
};
pub use worked_rules::{orders_of_servers, rises_of_servers};
pub use worked_runs_of_asking::runs_of_asking;
pub use worked_runs_of_breaks::runs_of_breaks;
pub use worked_runs_of_cuts::runs_of_cuts;
pub use worked_runs_of_others::runs_of_others;
pub use worked_runs_of_reads::runs_of_reads;
pub use worked_runs_of_writes::runs_of_writes;
pub use worked_server::{
    acknowledgments, breaks_of_servers, durable_opens, leases_given_up, odd_states,
    one_list_of_opens, opens_left, refusals_of_servers, requests_taken_back, two_passes,
};
pub use worked_setups::setups;
pub use worked_verdicts::{verdicts, verdicts_of_each_rule};
