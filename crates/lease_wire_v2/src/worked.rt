ghost use Rattle.lease_wire_v2.specs.Worked.{AskedLease, BreakingLease, AskedDurable, GrantedDurable, AskedReconnect, BrokenTo};
ghost use Rattle.lease_wire_v2.specs.Worked.{BothWritten, BothRead, LeasesOfBothVersions, LeaseOfAnotherLength};
ghost use Rattle.lease_wire_v2.specs.Worked.{ReconnectOfAnotherLength, FirstVersionTogether, DurablesOfBothVersions};
ghost use Rattle.lease_wire_v2.specs.Worked.{SecondVersionTogether};

/// Worked examples of data and of a notification: values, and their bytes as the tables of MS-SMB2 lay them out (2.2.13.2.10 to
/// 2.2.13.2.12, 2.2.14.2.11, 2.2.14.2.12, 2.2.23.2). Does nothing.
pub fn data_are_as_worked()
    ensures lease { AskedLease }
    ensures breaking { BreakingLease }
    ensures durable { AskedDurable }
    ensures granted { GrantedDurable }
    ensures reconnect { AskedReconnect }
    ensures notice { BrokenTo }
{}

/// Worked examples of chains: a lease and a durable open of version 2 are written and read; contexts that don't go together, or
/// whose data have another length, are refused. Does nothing.
pub fn chains_are_as_worked()
    ensures written { BothWritten }
    ensures read { BothRead }
    ensures leases { LeasesOfBothVersions }
    ensures lease_length { LeaseOfAnotherLength }
    ensures reconnect_length { ReconnectOfAnotherLength }
    ensures first_version { FirstVersionTogether }
    ensures durables { DurablesOfBothVersions }
    ensures second_version { SecondVersionTogether }
{}
