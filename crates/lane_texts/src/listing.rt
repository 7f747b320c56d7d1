//! The text of a space so far.
ghost use Rattle.std.specs.Prelude.{◌≡◌, ◌+◌, ◌<◌, ◌≤◌, ◌^◌, ℕ, List, [], ◌∷◌, ◌++◌, length, string_bytes, IfOk, OnOk};
ghost use Rattle.log_history.specs.Effects.{Page as PageView};
ghost use Rattle.page_texts.specs.Texts.{pages_text};
ghost use Rattle.space_pages.specs.Layout.{page_bytes};
ghost use Rattle.lane_texts.specs.Listings.{space_line, Lists};

use byte_fields::u64_at;
use page_texts::page_line;
use sha2::{Digest, Sha256};
use std::alloc::{AllocError, Global};

/// The lines of the pages so far, the digest of their bytes, and how many of them were written.
#[derive(Drop)]
pub(crate) struct Listing {
    pub(crate) text: String,
    pub(crate) hasher: Sha256,
    pub(crate) used: u32,
}

/// The last line of the text of a space.
fn space_line(
    alloc: Global,
    name: &str,
    count: u32,
    used: u32,
    digest: [u8; 32],
) -> Result<String, AllocError>
    ensures { IfOk result (λ line. string_bytes line ≡ space_line name.now count used digest) }
{
    let digits = hex::encode(alloc, digest)?;
    format!(in alloc; "space {name} pages {count} used {used} digest {digits}\n")
}

impl Listing {
    /// That of no pages.
    pub(crate) fn new(alloc: Global) -> Listing
        ensures lists { (space : ℕ) (name : List ℕ) → Lists space name [] result }
        ensures used { result.used ≡ 0 }
    {
        Listing {
            text: String::new(alloc),
            hasher: Sha256::new(),
            used: 0,
        }
    }

    /// Adds the bytes of the next page, and its line if it was written.
    pub(crate) fn add(
        &mut self,
        alloc: Global,
        name: &str,
        number: u32,
        bytes: &[u8; 4096],
    ) -> Result<(), AllocError>
        requires used { self.old.used ≤ number }
        requires number { number + 1 < 2 ^ 32 }
        ensures lists { (space : ℕ) (pages : List PageView) (page : PageView) → length pages ≡ number → page.stamp < 2 ^ 64
            → bytes.now ≡ page_bytes space number page → Lists space name.now pages self.old
            → OnOk result (Lists space name.now (pages ++ page ∷ []) self.new) }
        ensures used { OnOk result (self.new.used ≤ number + 1) }
    {
        self.hasher.update(bytes);
        let stamp = u64_at(bytes, 0);
        if stamp == 0 {
            return Ok(());
        }
        let line = page_line(alloc, name, number, stamp)?;
        self.text.push_str(&line)?;
        self.used += 1;
        Ok(())
    }

    /// The text of a space that has these pages and no others.
    pub(crate) fn finish(self, alloc: Global, name: &str, count: u32) -> Result<String, AllocError>
        ensures { (space : ℕ) (pages : List PageView) → length pages ≡ count → Lists space name.now pages self
            → IfOk result (λ text. string_bytes text ≡ pages_text space name.now pages) }
    {
        let Listing {
            mut text,
            hasher,
            used,
        } = self;
        let line = space_line(alloc, name, count, used, hasher.finalize())?;
        text.push_str(&line)?;
        Ok(text)
    }
}
