//! An image's maker.
ghost use Rattle.std.specs.Prelude.{◌≡◌, ◌<◌, ◌≤◌, ◌↔◌, IsTrue, true, false};
ghost use Rattle.std.specs.Int.{w64};
ghost use Rattle.byte_fields.specs.Fields.{number_at};
ghost use Rattle.level_archive.specs.Image.{head_bytes};
ghost use Rattle.level_archive.specs.Making.{new_making, with_entry, with_head};

use crate::ImageHead;
use crate::pages::stamp_of;
use std::marker::Model;
use std::ops::Range;

/// Makes an image: it is handed the pages of a space in order, and says which of them are entries.
#[derive(Debug, Drop)]
pub struct ImageMaker {
    head: ImageHead,
    pages: u32,
    is_begun: bool,
    entries: u32,
    from: u32,
}

impl Model for ImageMaker {
    ghost use Rattle.std.specs.Prelude.{◌≤◌};
    ghost use Rattle.level_archive.specs.Making.{Making};

    ghost Value = { Making };

    ghost view = { λ m. record { head = m.head; pages = m.pages; is_begun = m.is_begun; entries = m.entries; from = m.from } };

    ghost invariant = { λ m. (m.entries ≤ m.from) × (m.from ≤ m.pages) };
}

impl ImageMaker {
    /// Begins with the image of this head, of a space with so many pages.
    pub fn new(head: ImageHead, pages: u32) -> ImageMaker
        ensures { result ≡ new_making head pages }
    {
        ImageMaker {
            head,
            pages,
            is_begun: false,
            entries: 0,
            from: 0,
        }
    }

    /// The entries that were given.
    pub fn entries(&self) -> u32
        ensures { result ≡ self.now.entries }
    {
        self.entries
    }

    /// The numbers of the pages that are still to be looked at.
    pub fn rest(&self) -> Range<u32>
        ensures start { result.start ≡ self.now.from }
        ensures end { result.end ≡ self.now.pages }
        ensures ordered { self.now.from ≤ self.now.pages }
    {
        self.from..self.pages
    }

    /// Gives the head's block, unless it was given before.
    pub fn take_head(&mut self, into: &mut [u8; 4096]) -> bool
        ensures first { IsTrue result ↔ (self.old.is_begun ≡ false) }
        ensures given { result ≡ true → self.new ≡ with_head self.old }
        ensures bytes { result ≡ true → into.new ≡ head_bytes self.old.head }
        ensures kept { result ≡ false → self.new ≡ self.old }
    {
        if self.is_begun {
            return false;
        }
        self.is_begun = true;
        self.head.encode_into(into);
        true
    }

    /// Looks at the page with this number, and says whether its block is the next one of the image: its stamp is above the base.
    pub fn take(&mut self, number: u32, page: &[u8; 4096]) -> bool
        requires rising { self.old.from ≤ number }
        requires within { number < self.old.pages }
        ensures is_entry { IsTrue result ↔ self.old.head.base < number_at w64 0 page.now }
        ensures given { result ≡ true → self.new ≡ with_entry number self.old }
        ensures kept { result ≡ false → self.new ≡ self.old }
    {
        if stamp_of(page) <= self.head.base {
            return false;
        }
        self.entries += 1;
        self.from = number + 1;
        true
    }
}
