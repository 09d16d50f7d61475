ghost use Rattle.std.specs.Prelude.{◌≡◌, ◌+◌, false, IfOk, IsOk, OnOk};
ghost use Rattle.std.specs.Option.{option_map};
ghost use Rattle.lease_manager.specs.Outs.{decision_of};
ghost use Rattle.break_timers.specs.Numbering.{noted, number_told, starts_timer};
ghost use Rattle.break_timers.specs.Timers.{no_timers, run_out, started, stopped, timers_of};

use lease_manager::{Decision, LeaseName};
use lease_state::Memory;
use std::alloc::Global;
use std::collections::BTreeMap;
use std::marker::Model;

/// The number of a break's timer, from 1 on. No two timers that the same [`BreakTimers`] starts share a number.
#[derive(Clone, Copy, Debug, PartialEq, Eq, PartialOrd, Ord, Hash)]
pub struct BreakNo(pub u64);

/// The timers of lease breaks that are running. Each lease has at most one, which is that of its latest break.
#[derive(Debug, Drop)]
pub struct BreakTimers {
    started: u64,
    by_number: BTreeMap<u64, LeaseName>,
    by_key: BTreeMap<LeaseName, u64>,
}

impl Model for BreakTimers {
    ghost use Rattle.break_timers.specs.Timers as model;

    ghost Value = { model.Kept };

    ghost view = { λ timers. record { started = timers.started; entries = timers.by_number.entries } };

    ghost invariant = { λ timers. model.AreKept timers.started timers.by_number timers.by_key };
}

impl BreakTimers {
    /// Where none runs. Allocates nothing.
    pub fn new(alloc: Global) -> BreakTimers
        ensures { timers_of result ≡ no_timers }
    {
        BreakTimers {
            started: 0,
            by_number: BTreeMap::new(alloc),
            by_key: BTreeMap::new(alloc),
        }
    }

    /// What a decision of the manager does to timers: one begins to run for a break that has to be acknowledged, and its number
    /// is given; a break that is acknowledged has none any longer.
    ///
    /// # Errors
    ///
    /// `Memory` where a timer begins to run, and there is none left for it, or all numbers have been given.
    pub fn note(&mut self, decision: &Decision) -> Result<Option<BreakNo>, Memory>
        ensures number { IfOk result (λ number. option_map (λ one. one.0) number
            ≡ number_told (decision_of decision.now) (timers_of self.old)) }
        ensures timers { OnOk result (timers_of self.new ≡ noted (decision_of decision.now) (timers_of self.old)) }
        ensures silent { starts_timer (decision_of decision.now) ≡ false → IsOk result }
    {
        match decision {
            Decision::Breaks { client, notice } if notice.ack_required => {
                let key = LeaseName {
                    client: *client,
                    bytes: notice.key,
                };
                let number = self.start(key)?;
                Ok(Some(number))
            }
            Decision::Acknowledged { client, key, .. } => {
                self.stop(LeaseName {
                    client: *client,
                    bytes: *key,
                });
                Ok(None)
            }
            _ => Ok(None),
        }
    }

    /// The timer of a break of the lease begins to run, in place of that of an earlier break of it.
    ///
    /// # Errors
    ///
    /// `Memory` where there is none left, or all numbers have been given.
    pub fn start(&mut self, key: LeaseName) -> Result<BreakNo, Memory>
        ensures number { IfOk result (λ number. number.0 ≡ (timers_of self.old).started + 1) }
        ensures timers { OnOk result (timers_of self.new ≡ started key (timers_of self.old)) }
    {
        self.stop(key);
        let Some(number) = self.started.checked_add(1) else {
            return Err(Memory);
        };
        self.started = number;
        self.by_key.insert(key, number)?;
        self.by_number.insert(number, key)?;
        Ok(BreakNo(number))
    }

    /// No timer runs for a break of the lease any longer. Its number isn't given again.
    pub fn stop(&mut self, key: LeaseName)
        ensures { timers_of self.new ≡ stopped key (timers_of self.old) }
    {
        if let Some(number) = self.by_key.remove(&key) {
            self.by_number.remove(&number);
        }
    }

    /// The timer of this number has run out: the lease whose break it was, if it still ran.
    pub fn run_out(&mut self, number: BreakNo) -> Option<LeaseName>
        ensures lease { result ≡ (timers_of self.old).running number.0 }
        ensures timers { timers_of self.new ≡ run_out number.0 (timers_of self.old) }
    {
        let key = self.by_number.remove(&number.0)?;
        self.by_key.remove(&key);
        Some(key)
    }
}
