// Which calls of an object in memory fail, and how many have.
ghost use Rattle.std.specs.Prelude.{◌≡◌, ◌⊎◌, ◌+◌, ◌-◌, ◌^◌, ◌↔◌, min, [], Err, Ok, IfOk, IsErr, IsTrue, OnErr, OnOk, if◌then◌else◌, is_ok};
ghost use Rattle.edge_model.specs.Causes.{HasCause, Rose};
ghost use Rattle.edge_memory.specs.Gate.{CallCounts, at_first, called, is_next_due, listing, stopping};

use edge_model::{Failed, OutOfMemory};
use std::alloc::Global;
use std::marker::Model;

/// Why a call of an object in memory is not done.
#[derive(Clone, Copy, Debug, PartialEq, Eq)]
pub enum Refusal {
    /// Memory ran out.
    Memory,
    /// What is asked for is not there: the role's file, or so many bytes.
    Absent,
}

/// What each call of an object in memory passes first.
#[derive(Drop)]
pub struct Gate {
    calls: u64,
    stop: Option<u64>,
    failing: Vec<u64>,
    faults: u64,
    starved: u64,
}

impl Model for Gate {
    ghost Value = { CallCounts };

    ghost view = { λ gate. record { plan = record { calls = gate.calls; stop = gate.stop; failing = gate.failing.items }; faults = gate.faults; starved = gate.starved } };
}

impl Gate {
    /// No call is to fail.
    pub fn new(alloc: Global) -> Gate
        ensures { result ≡ at_first [] }
    {
        Gate {
            calls: 0,
            stop: None,
            failing: Vec::new(alloc),
            faults: 0,
            starved: 0,
        }
    }

    /// The calls of these numbers are to fail.
    pub fn with_failing(alloc: Global, failing: &[u64]) -> Result<Gate, OutOfMemory>
        ensures { IfOk result (λ gate. gate ≡ at_first failing.now) }
    {
        match failing.to_vec(alloc) {
            Ok(failing) => Ok(Gate {
                calls: 0,
                stop: None,
                failing,
                faults: 0,
                starved: 0,
            }),
            Err(_) => Err(OutOfMemory),
        }
    }

    /// So many calls pass, and after them none.
    pub fn stop_after(&mut self, calls: u64)
        ensures { self.new ≡ record self.old { plan = stopping calls self.old.plan } }
    {
        self.stop = Some(self.calls.saturating_add(calls));
    }

    /// These calls are to fail as well, counted from the next one as 1.
    pub fn fail_calls(&mut self, calls: &[u64]) -> Result<(), OutOfMemory>
        ensures ok { OnOk result (self.new ≡ record self.old { plan = listing calls.now self.old.plan }) }
        ensures err { OnErr result (self.new ≡ self.old) }
    {
        let base = self.calls;
        let listed = calls
            .iter()
            .map(|call| base.saturating_add(*call))
            .collect(*self.failing.allocator());
        let Ok(listed): Result<Vec<u64>, _> = listed else {
            return Err(OutOfMemory);
        };
        match self.failing.extend_from_slice(&listed) {
            Ok(()) => Ok(()),
            Err(_) => Err(OutOfMemory),
        }
    }

    /// How often memory was refused.
    pub fn starved(&self) -> u64
        ensures { result ≡ self.now.starved }
    {
        self.starved
    }

    /// Counts a call, and fails it where it is listed or past the stop.
    pub fn admit(&mut self) -> Result<(), Failed>
        ensures due { IsErr result ↔ IsTrue (is_next_due self.old.plan) }
        ensures plan { self.new.plan ≡ called self.old.plan }
        ensures faults { self.new.faults ≡ (if is_ok result then self.old.faults else min (self.old.faults + 1) (2 ^ 64 - 1)) }
        ensures starved { self.new.starved ≡ self.old.starved }
        ensures cause { HasCause self.old.faults self.new.faults result }
    {
        self.calls = self.calls.saturating_add(1);
        let call = self.calls;
        let stopped = match self.stop {
            Some(last) => call > last,
            None => false,
        };
        if stopped || self.failing.contains(&call) {
            self.faults = self.faults.saturating_add(1);
            return Err(Failed);
        }
        Ok(())
    }

    /// Counts a refusal.
    pub fn settle<T: Drop>(&mut self, outcome: Result<T, Refusal>) -> Result<T, Failed>
        ensures same { is_ok result ≡ is_ok outcome }
        ensures value { IfOk result (λ value. outcome ≡ Ok value) }
        ensures plan { self.new.plan ≡ self.old.plan }
        ensures faults { self.new.faults ≡ (if is_ok result then self.old.faults else min (self.old.faults + 1) (2 ^ 64 - 1)) }
        ensures fed { OnOk result (self.new.starved ≡ self.old.starved) }
        ensures starved { OnErr result ((outcome ≡ Err Refusal.Absent) ⊎ Rose self.old.starved self.new.starved) }
        ensures cause { HasCause self.old.faults self.new.faults result }
    {
        match outcome {
            Ok(value) => Ok(value),
            Err(refusal) => {
                if refusal == Refusal::Memory {
                    self.starved = self.starved.saturating_add(1);
                }
                self.faults = self.faults.saturating_add(1);
                Err(Failed)
            }
        }
    }
}
