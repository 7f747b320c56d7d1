//! The workers of a run. Each draws jobs and runs them until it finds none left.
ghost use Rattle.std.specs.Prelude.{◌≡◌, ◌<◌, ◌≤◌, [], ◌∷◌, MatchBool};
ghost use Rattle.std.specs.Thread.{IsSend, IsSync};
ghost use Rattle.stream_board.specs.Calls.{Accepts, Changes, AcceptsAll};
ghost use Rattle.stream_board.specs.Steps.{missed};
ghost use Rattle.stream_board.specs.Work.{RunsHeld, RunsOne, CanSpread, HasSpread, RunsRound};
ghost use Rattle.stream_board.specs.declared.rule.CountedJob.{CountedJob};
ghost use Rattle.stream_board.specs.declared.rule.Stage.TheVariants.{Idle};

use crate::rule::{CountedJob, EachOnce, View};
use crate::steps::{Draw, Finish, Gather, Halve, Rest, Wake};
use atomic_table::{Seat, Shared};
use std::snapshot::Snapshot;
use std::thread::{Threads, join};

pub type JobTable<J> = Shared<CountedJob<J>, View<J>, Snapshot<Vec<J>>, EachOnce>;

pub type Worker<J> = Seat<CountedJob<J>, View<J>>;

// The only call of the function.
fn call<J, F: Fn(&mut J)>(f: &F, job: &mut J)
    requires { Accepts F.Fn f.now job.old }
    ensures { Changes F.Fn f.now job.old job.new }
{
    f(job);
}

// Runs the job that the worker holds.
fn run_held<J, F: Fn(&mut J)>(table: &JobTable<J>, worker: &mut Worker<J>, number: usize, f: &F)
    requires own { worker.old.table_id ≡ table.now.table_id }
    requires held { (b : CountedJob J) × (worker.old.me.1 ≡ (number, b) ∷ []) × Accepts F.Fn f.now b.job }
    ensures own { worker.new.table_id ≡ worker.old.table_id }
    ensures ran { RunsHeld F.Fn f.now number worker.old.me worker.new.me }
{
    let counted = worker.slot_mut(table, number);
    call(f, &mut counted.job);
    counted.rounds = counted.rounds.wrapping_add(1);
}

// Draws a job, runs it and gives it back, or says that there was none left.
fn turn<J, F: Fn(&mut J)>(table: &JobTable<J>, count: usize, worker: &mut Worker<J>, f: &F) -> bool
    requires own { worker.old.table_id ≡ table.now.table_id }
    requires counts { (table.now.table_id.words ≡ 2) × (table.now.table_id.slots ≡ count) }
    requires worker { (worker.old.me.0.stage ≡ Idle) × (worker.old.me.1 ≡ []) × (worker.old.me.0.misses < worker.old.me.0.shares) }
    requires accepts { AcceptsAll F.Fn f.now worker.old.me.0.start }
    ensures own { worker.new.table_id ≡ worker.old.table_id }
    ensures none_held { worker.new.me.1 ≡ [] }
    ensures turn { MatchBool result (RunsOne F.Fn f.now count worker.old.me.0 worker.new.me.0) (worker.new.me.0 ≡ missed worker.old.me.0) }
{
    let number = table.fetch_add::<Draw>(worker, 0, 1);
    if number >= count as u64 {
        return false;
    }
    run_held(table, worker, number as usize, f);
    table.fetch_add::<Finish>(worker, 1, 1);
    true
}

// Runs jobs until none is left to draw.
fn work<J, F: Fn(&mut J)>(table: &JobTable<J>, count: usize, worker: Worker<J>, f: &F) -> Worker<J>
    requires { CanSpread F.Fn f.now table.now.table_id count 1 worker }
    ensures { HasSpread F.Fn f.now worker result }
{
    let mut mine = worker;
    while turn(table, count, &mut mine, f) {}
    mine
}

// Halves the seat until each worker has one. With the greater halves of shares and of workers on one side, no worker
// is left without a share.
#[cycle(spreads)]
fn spread<J: Send, R: Threads + Sync, F: Fn(&mut J) + Sync>(
    rt: &R,
    table: &JobTable<J>,
    count: usize,
    worker: Worker<J>,
    workers: u16,
    f: &F,
) -> Worker<J>
    requires { CanSpread F.Fn f.now table.now.table_id count workers worker }
    ensures { HasSpread F.Fn f.now worker result }
{
    if workers < 2 {
        return work(table, count, worker, f);
    }
    let less = workers / 2;
    let more = workers - less;
    let mut mine = worker;
    let theirs = table.split_seat::<Halve>(&mut mine);
    let (mut mine, theirs) = join(
        rt,
        move || -> Worker<J>
            requires { IsSync R.row × IsSync F.row × IsSend J.row × CanSpread F.Fn f.now table.now.table_id count more mine }
            ensures { HasSpread F.Fn f.entry.now mine result }
        { spread(rt, table, count, mine, more, f) },
        move || -> Worker<J>
            requires { IsSync R.row × IsSync F.row × IsSend J.row × CanSpread F.Fn f.now table.now.table_id count less theirs }
            ensures { HasSpread F.Fn f.entry.now theirs result }
        { spread(rt, table, count, theirs, less, f) },
    );
    table.join_seat::<Gather>(&mut mine, theirs);
    mine
}

/// Each job runs once, and the table is ready for the next run.
pub fn run_round<J: Send, R: Threads + Sync, F: Fn(&mut J) + Sync>(
    rt: &R,
    table: &JobTable<J>,
    count: usize,
    worker: Worker<J>,
    workers: u16,
    f: &F,
) -> Worker<J>
    requires spread { CanSpread F.Fn f.now table.now.table_id count workers worker }
    requires whole { worker.me.0.shares ≡ 16 }
    ensures own { result.table_id ≡ worker.table_id }
    ensures ran { RunsRound F.Fn f.now worker.me result.me }
{
    let mut worker = spread(rt, table, count, worker, workers, f);
    table.store::<Rest>(&mut worker, 0, 0);
    table.store::<Wake>(&mut worker, 1, 0);
    worker
}
