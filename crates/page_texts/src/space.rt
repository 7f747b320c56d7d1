//! The text of a space.
ghost use Rattle.std.specs.Prelude.{◌≡◌, ◌++◌, IfOk, OnOk, string_bytes};
ghost use Rattle.page_texts.specs.Texts.{pages_text, used_line, used_lines};

use crate::page_line;
use space_pages::Pages;
use std::alloc::{AllocError, Global};

/// Appends the line of a page, if it was written.
fn push_used_line(
    alloc: Global,
    text: &mut String,
    space: &str,
    number: u32,
    stamp: u64,
) -> Result<(), AllocError>
    ensures { OnOk result (string_bytes text.new ≡ string_bytes text.old ++ used_line space.now number stamp) }
{
    if stamp == 0 {
        return Ok(());
    }
    let line = page_line(alloc, space, number, stamp)?;
    text.push_str(&line)
}

/// Appends the lines of the pages that were written.
fn push_used_lines(
    alloc: Global,
    text: &mut String,
    space: &str,
    pages: &Pages,
) -> Result<(), AllocError>
    ensures { OnOk result (string_bytes text.new ≡ string_bytes text.old ++ used_lines space.now 0 pages.now.pages) }
{
    for index in 0..pages.len() {
        push_used_line(alloc, text, space, index, pages.stamp(index))?;
    }
    Ok(())
}

/// A space, of which these are all pages: a line for each page that was written, and one of the space with the SHA-256 of
/// all its pages.
pub fn pages_text(alloc: Global, space: &str, pages: &Pages) -> Result<String, AllocError>
    requires { pages.now.first ≡ 0 }
    ensures { IfOk result (λ text. string_bytes text ≡ pages_text pages.now.space space.now pages.now.pages) }
{
    let mut text = String::new(alloc);
    push_used_lines(alloc, &mut text, space, pages)?;
    let (count, used) = (pages.len(), pages.used());
    let digest = hex::encode(alloc, pages.digest())?;
    let line = format!(in alloc; "space {space} pages {count} used {used} digest {digest}\n")?;
    text.push_str(&line)?;
    Ok(text)
}
