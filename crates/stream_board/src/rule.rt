//! What lies on the table of a board, what its seats know, and the rule over both.
//!
//! Word 0 of the table counts the draws of a run (the claim word), word 1 the jobs that have come home (the done word).
//! Slot `i` has job `i`. A seat with a share may still draw; the shares of all seats add up to 16.
use atomic_table::TableRule;
use std::collections::LinkedList;
use std::snapshot::Snapshot;

/// A job, and how often it has run, modulo 2^64.
#[derive(Drop)]
pub struct CountedJob<J> {
    pub job: J,
    pub rounds: u64,
}

pub enum Stage {
    Idle,
    /// The seat has the job of this number.
    Holding(u64),
    /// All jobs are home, and the claim word is 0 again.
    Resting,
    /// The seat was joined to another.
    Spent,
}

/// The run of a job: its number, and its value after the run.
pub struct JobRun<J> {
    pub number: u64,
    pub value: J,
}

/// What a seat knows. No value of it is made.
pub struct View<J> {
    pub stage: Stage,
    /// How often each job will have run after this run, modulo 2^64.
    pub round: u64,
    pub shares: u64,
    /// How often a draw found no job left.
    pub misses: u64,
    /// The jobs' values before this run.
    pub start: LinkedList<J>,
    /// What the seat ran in this run.
    pub runs: LinkedList<JobRun<J>>,
}

/// Each job is drawn once a run, and given back.
pub struct EachOnce;

impl<J> TableRule<CountedJob<J>, View<J>, Snapshot<Vec<J>>> for EachOnce {
    ghost use Rattle.stream_board.specs.Views.{fresh};
    ghost use Rattle.stream_board.specs.Rule.{Rule};

    ghost holds = { λ _. Rule };

    ghost first = { λ jobs. fresh 1 16 jobs.value.items };
}
