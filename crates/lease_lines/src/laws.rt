//! What is true of machine lines by their tables: a public function whose contract carries the law. It does nothing.

ghost use Rattle.lease_texts.specs.{Complaints.complaint, FirstFaults.ComplainsExactly, Tables.FieldSays};
ghost use Rattle.lease_lines.specs.ClientLines.{client_kinds, client_line_in, client_table};
ghost use Rattle.lease_lines.specs.ServerLines.{server_kinds, server_line_in, server_table};

/// There is a complaint about a line exactly where it is read as none of the table, and it is of the first field that no line
/// of the table has. Does nothing.
#[tactic(auto, using(crate::proofs::Rows::clients_complained, crate::proofs::Rows::servers_complained))]
pub fn reasons_name_first_faults()
    ensures clients { ComplainsExactly FieldSays client_kinds client_line_in (complaint client_table) }
    ensures servers { ComplainsExactly FieldSays server_kinds server_line_in (complaint server_table) }
{}
