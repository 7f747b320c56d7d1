//! The board: the jobs on their table, and the one seat that there is between two runs.
ghost use Rattle.std.specs.Prelude.{◌≡◌, ◌+◌, ◌<◌, ◌≤◌, [], ◌++◌, length, map, reverse, vec_len, vec_capacity, IfOk, IfErr};
ghost use Rattle.stream_board.specs.Calls.{AcceptsEach, ChangesEach};
ghost use Rattle.stream_board.specs.Views.{counted};

use crate::rule::{CountedJob, EachOnce, View};
use crate::worker::run_round;
use atomic_table::{Badge, Refused, Table};
use std::alloc::Global;
use std::marker::Model;
use std::mem;
use std::snapshot::Snapshot;
use std::thread::Threads;

/// Memory ran out.
#[derive(Clone, Copy, Debug, PartialEq, Eq)]
pub struct OutOfMemory;

/// 1 to 16 jobs that workers draw, run and give back. Contracts see it as the jobs' values in their first order.
#[derive(Drop)]
pub struct Board<J> {
    table: Table<CountedJob<J>, View<J>, Snapshot<Vec<J>>, EachOnce, Global>,
    seat: Badge<View<J>>,
    // The emptied vector that the jobs came in.
    room: Vec<J>,
}

impl<J> Model for Board<J> {
    ghost use Rattle.std.specs.Prelude.{List, vec_capacity};
    ghost use Rattle.stream_board.specs.Between.{Between, values_of};

    ghost Value = { List J };

    ghost view = { λ b. values_of b.seat.views };

    ghost invariant = { λ b. Between b.table.shared.table_id b.seat.table_id b.seat.views b.room.items (vec_capacity b.room) };
}

// The jobs move out, each as one that has not run.
fn move_out<J>(jobs: &mut Vec<J>, slots: &mut Vec<CountedJob<J>>)
    requires room { vec_len slots.old + vec_len jobs.old ≤ vec_capacity slots.old }
    requires empty { slots.old.items ≡ [] }
    ensures jobs { jobs.new.items ≡ [] }
    ensures slots { slots.new.items ≡ map (λ x. counted x 0) jobs.old.items }
    ensures capacity { vec_capacity jobs.new ≡ vec_capacity jobs.old }
{
    while let Some(job) = jobs.pop() {
        slots.push_reserved(CountedJob { job, rounds: 0 });
    }
    slots.reverse();
}

// The jobs move back, in their first order.
fn move_back<J>(slots: Vec<CountedJob<J>>, jobs: &mut Vec<J>)
    requires room { vec_len jobs.old + vec_len slots ≤ vec_capacity jobs.old }
    requires empty { jobs.old.items ≡ [] }
    ensures { jobs.new.items ≡ map (λ s. s.job) slots.items }
{
    let mut slots = slots;
    while let Some(CountedJob { job, rounds: _ }) = slots.pop() {
        jobs.push_reserved(job);
    }
    jobs.reverse();
    slots.destroy_empty();
}

impl<J> Board<J> {
    /// A board with these 1 to 16 jobs, of which none has run. The jobs come back where memory runs out.
    pub fn new(jobs: Vec<J>) -> Result<Board<J>, (Vec<J>, OutOfMemory)>
        requires { (0 < vec_len jobs) × (vec_len jobs ≤ 16) }
        ensures ok { IfOk result (λ board. board ≡ jobs.items) }
        ensures err { IfErr result (λ refused. refused.0.items ≡ jobs.items) }
    {
        let mut jobs = jobs;
        let alloc = *jobs.allocator();
        let Ok(mut slots) = Vec::with_capacity(alloc, jobs.len()) else {
            return Err((jobs, OutOfMemory));
        };
        let first = Snapshot::of(&jobs);
        move_out(&mut jobs, &mut slots);
        match Table::new(alloc, &[0, 0], slots, &first) {
            Ok((table, seat)) => Ok(Board {
                table,
                seat: seat.into_badge(),
                room: jobs,
            }),
            Err(Refused { slots }) => {
                move_back(slots, &mut jobs);
                Err((jobs, OutOfMemory))
            }
        }
    }

    /// Runs each job once, by 1 to 16 workers that draw jobs until none is left. `f` keeps what came of a job in the
    /// job. A further run runs each job once more.
    pub fn run<R: Threads + Sync, F: Fn(&mut J) + Sync>(&mut self, rt: &R, workers: u16, f: &F)
    where
        J: Send,
        requires workers { (0 < workers) × (workers ≤ 16) }
        requires accepts { AcceptsEach F.Fn f.now self.old }
        ensures len { length self.new ≡ length self.old }
        ensures each { ChangesEach F.Fn f.now self.old self.new }
    {
        let count = self.table.slot_count();
        let seat = mem::replace(&mut self.seat, Badge::blank()).into_seat();
        let seat = run_round(rt, &self.table.shared, count, seat, workers, f);
        self.seat = seat.into_badge();
    }

    /// The jobs, in their first order. It takes no memory.
    pub fn close(self) -> Vec<J>
        ensures { result.items ≡ self }
    {
        let Board {
            table,
            seat,
            room: mut jobs,
        } = self;
        let mut closed = table.close_with(seat.into_seat());
        for i in 0..closed.slot_count() {
            let CountedJob { job, rounds: _ } = closed.take(i);
            jobs.push_reserved(job);
        }
        closed.free();
        jobs
    }
}
