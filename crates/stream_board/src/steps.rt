//! The seven kinds of step on the table. Six are below; the seventh reads and writes the job that a seat holds.
use crate::rule::{CountedJob, View};
use atomic_table::{Join, Play, Split};

/// One more draw: the job of the number found, or a miss.
pub struct Draw;

impl<J> Play<CountedJob<J>, View<J>> for Draw {
    ghost use Rattle.stream_board.specs.Steps.{drew};

    ghost then = { drew };
}

/// One more job home.
pub struct Finish;

impl<J> Play<CountedJob<J>, View<J>> for Finish {
    ghost use Rattle.stream_board.specs.Steps.{finished};

    ghost then = { finished };
}

/// The claim word back to 0.
pub struct Rest;

impl<J> Play<CountedJob<J>, View<J>> for Rest {
    ghost use Rattle.stream_board.specs.Steps.{rested};

    ghost then = { rested };
}

/// The done word back to 0.
pub struct Wake;

impl<J> Play<CountedJob<J>, View<J>> for Wake {
    ghost use Rattle.stream_board.specs.Steps.{woke};

    ghost then = { woke };
}

/// A seat gives the lesser half of its shares to a further seat.
pub struct Halve;

impl<J> Split<View<J>> for Halve {
    ghost use Rattle.stream_board.specs.Steps.{kept_half, given_half};

    ghost left = { kept_half };

    ghost right = { given_half };
}

/// A seat takes in what another has run.
pub struct Gather;

impl<J> Join<View<J>> for Gather {
    ghost use Rattle.stream_board.specs.Views.{spent};
    ghost use Rattle.stream_board.specs.Steps.{both};

    ghost both = { both };

    ghost spent = { spent };
}
