//! Why not all lanes were opened.
ghost use Rattle.std.specs.Prelude.{◌≡◌, ◌+◌, ◌<◌, ℕ};
ghost use Rattle.site_lanes.specs.Firsts.{Notes, Tells};

/// Why not all lanes were opened.
#[derive(Clone, Copy, Debug, PartialEq, Eq)]
pub enum LanesFault {
    /// The chunk of this space has no valid header.
    ChunkLost { space: u16 },
    /// The mark of this chunk isn't in the grammar.
    BadMark { space: u16 },
    /// The disk of this space failed.
    Failed { space: u16 },
}

/// What the opening of one lane came to: it was opened, its chunk is lost, or its mark is bad.
#[derive(Clone, Copy, Debug, PartialEq, Eq)]
pub enum Opening {
    Opened,
    Lost,
    Bad,
}

/// The first space so far whose chunk is lost, and the first one whose mark is bad.
#[derive(Drop)]
pub(crate) struct Refusals {
    pub lost: Option<u16>,
    pub bad: Option<u16>,
}

impl Refusals {
    /// Notes what the opening of the next lane came to.
    pub(crate) fn note(&mut self, space: u16, opening: Opening)
        ensures { Notes space opening self.old self.new }
    {
        match opening {
            Opening::Opened => {}
            Opening::Lost => self.lost = self.lost.or(Some(space)),
            Opening::Bad => self.bad = self.bad.or(Some(space)),
        }
    }

    /// The refusal, if any: that of the first lost chunk, else that of the first bad mark.
    pub(crate) fn answer(self) -> Result<(), LanesFault>
        ensures { Tells self result }
    {
        if let Some(space) = self.lost {
            return Err(LanesFault::ChunkLost { space });
        }
        match self.bad {
            Some(space) => Err(LanesFault::BadMark { space }),
            None => Ok(()),
        }
    }
}
