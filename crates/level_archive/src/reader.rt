//! An image's reader.
ghost use Rattle.std.specs.Prelude.{◌≡◌, IfErr, IfOk, IfSome, MatchOption, OnErr};
ghost use Rattle.level_archive.specs.Reading.{Begins, Gives, Refuses, new_reading};

use crate::ImageHead;
use crate::pages::{is_first, next_number};
use std::marker::Model;

/// Why a block is refused.
#[derive(Clone, Copy, Debug, PartialEq, Eq)]
pub enum ImageFault {
    /// The first block isn't the head, or the size isn't that of an image.
    BadHead,
    /// The block in this entry's place, counted from 0, isn't a page that may come next.
    BadEntry { entry: u32 },
}

/// Takes the blocks of an image one by one, and gives its pages.
#[derive(Debug, Drop)]
pub struct ImageReader {
    head: ImageHead,
    pages: u32,
    size: u64,
    is_begun: bool,
    entries: u32,
    from: u32,
}

impl Model for ImageReader {
    ghost use Rattle.std.specs.Prelude.{◌≤◌};
    ghost use Rattle.level_archive.specs.Reading.{Reading};

    ghost Value = { Reading };

    ghost view = { λ r. record { head = r.head; pages = r.pages; size = r.size; is_begun = r.is_begun; entries = r.entries; from = r.from } };

    ghost invariant = { λ r. (r.entries ≤ r.from) × (r.from ≤ r.pages) };
}

impl ImageReader {
    /// Begins with the image of this head, of a space with so many pages, in so many bytes.
    pub fn new(head: ImageHead, pages: u32, size: u64) -> ImageReader
        ensures { result ≡ new_reading head pages size }
    {
        ImageReader {
            head,
            pages,
            size,
            is_begun: false,
            entries: 0,
            from: 0,
        }
    }

    /// Takes the next block. The first is the head and gives nothing, and each later one gives its page and that one's number.
    ///
    /// `BadHead` where the first block isn't the head, or the size isn't that of the head and one block for each of at most all pages.
    /// `BadEntry` where a later one isn't a page of the space above the last one given, with a stamp above the base and at most the
    /// archive's position.
    pub fn feed<'a>(
        &mut self,
        block: &'a [u8; 4096],
    ) -> Result<Option<(u32, &'a [u8; 4096])>, ImageFault>
        ensures taken { IfOk result (λ given. MatchOption given (Begins self.old block.now self.new) (λ page. Gives self.old block.now page.0 self.new)) }
        ensures bytes { IfOk result (λ given. IfSome given (λ page. page.1.now ≡ block.now)) }
        ensures cause { IfErr result (Refuses self.old block.now) }
        ensures refused { OnErr result (self.new ≡ self.old) }
    {
        if !self.is_begun {
            if !is_first(&self.head, self.pages, self.size, block) {
                return Err(ImageFault::BadHead);
            }
            self.is_begun = true;
            return Ok(None);
        }
        let Some(number) = next_number(&self.head, self.pages, self.from, block) else {
            return Err(ImageFault::BadEntry {
                entry: self.entries,
            });
        };
        self.entries += 1;
        self.from = number + 1;
        Ok(Some((number, block)))
    }
}
