//! The text of a page.
ghost use Rattle.std.specs.Prelude.{◌≡◌, ◌++◌, ◌*◌, ◌<◌, IfOk, OnOk, string_bytes, drop, length};
ghost use Rattle.plain_pages.specs.Page.{page_of};
ghost use Rattle.page_texts.specs.Texts.{is_zero, page_line, page_text, row, rows};

use plain_pages::Page;
use std::alloc::{AllocError, Global};

/// The line of a page of a space: its number, and the position of the last Commit that wrote it.
pub fn page_line(alloc: Global, space: &str, number: u32, stamp: u64) -> Result<String, AllocError>
    ensures { IfOk result (λ text. string_bytes text ≡ page_line space.now number stamp) }
{
    format!(in alloc; "page {space} {number} stamp {stamp}\n")
}

fn is_zero(bytes: &[u8]) -> bool
    ensures { result ≡ is_zero bytes.now }
{
    bytes.iter().all(|byte| *byte == 0)
}

/// Appends sixteen bytes of a payload behind their offset; nothing where all are zero.
#[tactic(auto, unfolding(crate::specs::Texts::row))]
fn push_row(alloc: Global, text: &mut String, offset: u16, bytes: &[u8]) -> Result<(), AllocError>
    ensures { OnOk result (string_bytes text.new ≡ string_bytes text.old ++ row offset bytes.now) }
{
    if is_zero(bytes) {
        return Ok(());
    }
    let place = hex::encode(alloc, offset.to_be_bytes())?;
    let digits = hex::encode(alloc, bytes)?;
    let line = format!(in alloc; "{place} {digits}\n")?;
    text.push_str(&line)
}

/// Appends a payload, sixteen bytes a line.
fn push_rows(alloc: Global, text: &mut String, payload: &[u8]) -> Result<(), AllocError>
    requires { length payload.now ≡ 4080 }
    ensures { OnOk result (string_bytes text.new ≡ string_bytes text.old ++ rows 255 0 payload.now) }
{
    for i in 0..255 {
        let at = 16 * i;
        push_row(alloc, text, at as u16, &payload[at..at + 16])?;
    }
    Ok(())
}

/// A page of a space: its line, and a line for each sixteen bytes of its payload that aren't all zero.
pub fn page_text(alloc: Global, space: &str, number: u32, page: &Page) -> Result<String, AllocError>
    ensures { IfOk result (λ text. string_bytes text ≡ page_text space.now number (page_of page.now)) }
{
    let mut text = page_line(alloc, space, number, page.stamp)?;
    push_rows(alloc, &mut text, &page.payload)?;
    Ok(text)
}
