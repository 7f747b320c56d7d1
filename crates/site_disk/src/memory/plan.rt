// Which calls of a device in memory fail.
ghost use Rattle.std.specs.Prelude.{◌≡◌, ◌↔◌, [], ℕ, List, IsTrue};
ghost use Rattle.site_disk.specs.Plans.{planned_from_now, FailsNext, counted_on};
ghost use Rattle.site_disk.specs.DiskPlans.{no_failures, CallFails, stop_from_now, plan_after, front_put, IsFailing, front_of};

use std::alloc::Global;
use std::marker::Model;

/// The numbers of the calls that fail, counted from 1.
#[derive(Drop)]
pub struct FailPlan {
    calls: Vec<u64>,
    next: Option<u64>,
}

impl Model for FailPlan {
    ghost use Rattle.site_disk.specs.Plans.{Planned};

    ghost Value = { Planned };

    ghost view = { λ plan. record { calls = plan.calls.items; next = plan.next } };
}

impl FailPlan {
    /// Counts from the next call on.
    pub fn new(calls: Vec<u64>) -> FailPlan
        ensures { result ≡ planned_from_now calls.items }
    {
        FailPlan {
            calls,
            next: Some(1),
        }
    }

    /// Counts a call, and answers whether it is one that fails.
    pub fn count_call(&mut self) -> bool
        ensures fails { IsTrue result ↔ FailsNext self.old }
        ensures counted { self.new ≡ counted_on self.old }
    {
        let Some(number) = self.next else {
            return false;
        };
        self.next = number.checked_add(1);
        self.calls.contains(&number)
    }
}

/// Where the calls of a disk stop for good.
#[derive(Clone, Copy)]
pub enum Stop {
    Never,
    /// After so many calls; the one that stops puts so many bytes if it is a write.
    After { calls: u64, bytes: usize },
    Past,
}

/// How a call of a disk goes.
#[derive(Clone, Copy)]
pub enum Fate {
    Goes,
    Fails,
    /// Fails, and a write puts so many of its first bytes.
    Stops(usize),
}

/// The calls of a disk that fail.
#[derive(Drop)]
pub struct DiskPlan {
    pub fail: FailPlan,
    pub stop: Stop,
}

impl DiskPlan {
    /// No call fails.
    pub fn new(alloc: Global) -> DiskPlan
        ensures { result ≡ no_failures }
    {
        DiskPlan {
            fail: FailPlan::new(Vec::new(alloc)),
            stop: Stop::Never,
        }
    }

    /// Stops at a call, counted from 1 from now on.
    pub fn stop_at(&mut self, call: u64, bytes: usize)
        ensures { self.new ≡ record self.old { stop = stop_from_now call bytes } }
    {
        self.stop = match call.checked_sub(1) {
            Some(calls) => Stop::After { calls, bytes },
            None => Stop::Past,
        };
    }

    /// Counts a call, and answers how it goes.
    pub fn count_call(&mut self) -> Fate
        ensures fails { IsFailing result ↔ CallFails self.old }
        ensures front { (piece : List ℕ) → front_of result piece ≡ front_put self.old.stop piece }
        ensures counted { self.new ≡ plan_after self.old }
    {
        let named = self.fail.count_call();
        match self.stop {
            Stop::After { calls: 0, bytes } => {
                self.stop = Stop::Past;
                Fate::Stops(bytes)
            }
            Stop::After { calls, bytes } => {
                self.stop = Stop::After {
                    calls: calls - 1,
                    bytes,
                };
                if named { Fate::Fails } else { Fate::Goes }
            }
            Stop::Past => Fate::Fails,
            Stop::Never => { if named { Fate::Fails } else { Fate::Goes } }
        }
    }
}
