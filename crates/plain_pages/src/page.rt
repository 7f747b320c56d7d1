//! A page, and a Write laid into it.
ghost use Rattle.std.specs.Prelude.{◌≡◌, ◌+◌, ◌≤◌, ◌++◌, length, take, drop};
ghost use Rattle.log_history.specs.Effects.{empty_page};
ghost use Rattle.plain_pages.specs.Page.{page_of};

/// A page of a space.
#[derive(Clone, Copy, Debug, PartialEq, Eq)]
pub struct Page {
    /// The position of the last Commit that wrote it, 0 where none did.
    pub stamp: u64,
    /// Its bytes.
    pub payload: [u8; 4080],
}

impl Page {
    /// A page never written.
    #[tactic(auto, unfolding(log_history::specs::Effects::empty_page))]
    pub fn empty() -> Page
        ensures { page_of result ≡ empty_page }
    {
        Page {
            stamp: 0,
            payload: [0; 4080],
        }
    }

    /// Lays bytes at an offset of the payload, by the Commit at this position.
    pub fn lay(&mut self, commit: u64, offset: u16, bytes: &[u8])
        requires { offset + length bytes.now ≤ 4080 }
        ensures { page_of self.new ≡ record {
          stamp = commit;
          payload =
              take offset self.old.payload ++ bytes.now ++ drop (offset + length bytes.now) self.old.payload;
        } }
    {
        let from = usize::from(offset);
        self.payload[from..from + bytes.len()].copy_from_slice(bytes);
        self.stamp = commit;
    }
}
