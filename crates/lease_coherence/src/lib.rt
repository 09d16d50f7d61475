//! Every run is safe: public functions with an empty body whose contracts carry the parts of that
//! theorem. A client *strays* where a request is sent in its name that its machine didn't make.
#![tactic(auto)]

mod agreement;
mod parts;
mod structure;
mod theorem;

pub use agreement::clients_and_server_agree;
pub use parts::{
    cached_reads_are_fresh, no_write_is_late, nothing_is_falsely_done, runs_are_well_formed,
    runs_have_one_write_cache,
};
pub use structure::runs_have_structure;
pub use theorem::coherent;
