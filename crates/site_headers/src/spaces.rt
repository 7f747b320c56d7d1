//! The spaces in the catalogue's header, 24 bytes each.
ghost use Rattle.std.specs.Prelude.{Some, ◌≡◌, ◌≢◌, ◌+◌, ◌*◌, ◌≤◌, ◌↔◌, ◌++◌, All, List, length, map, take, drop, IsTrue, IsSome, IfSome, IfOk};
ghost use Rattle.std.specs.List.{flat_map};
ghost use Rattle.onbar_grammar.specs.Script.{Space};
ghost use Rattle.site_headers.specs.declared.heads.SpaceHead.{SpaceHead};
ghost use Rattle.site_headers.specs.Headers.{space_bytes};
ghost use Rattle.site_headers.specs.Parts.{HasSpace, HasNewSpace, BeginsWithSpaces};
ghost use Rattle.site_headers.specs.Views.{space_of};

use crate::SpaceHead;
use crate::names::name_at;
use bsa_descriptor::Text;
use byte_fields::{u32_at, write_text, write_u32};
use site_disk::OutOfMemory;
use std::alloc::Global;

#[tactic(auto, unfolding(crate::specs::Headers::space_bytes))]
fn write_space(page: &mut [u8], at: usize, space: &SpaceHead)
    requires { at + 24 ≤ length page.old }
    ensures { take (at + 24) page.new ≡ take at page.old ++ space_bytes (space_of space.now) }
{
    write_text(page, at, 20, space.name.as_bytes());
    write_u32(page, at + 20, space.pages);
}

/// Writes the spaces one after another from this offset on.
pub(crate) fn write_spaces(page: &mut [u8], at: usize, spaces: &[SpaceHead])
    requires { at + 24 * length spaces.now ≤ length page.old }
    ensures { take (at + 24 * length spaces.now) page.new ≡ take at page.old ++ flat_map space_bytes (map space_of spaces.now) }
{
    for (i, space) in spaces.iter().enumerate() {
        write_space(page, at + 24 * i, space);
    }
}

fn has_name(space: &SpaceHead, name: &Text<19>) -> bool
    ensures { IsTrue result ↔ (space.now.name ≡ name.now) }
{
    space.name == *name
}

/// Whether none of the spaces has this name.
fn is_fresh(name: &Text<19>, spaces: &[SpaceHead]) -> bool
    ensures { IsTrue result ↔ All (λ space. space.name ≢ name.now) spaces.now }
{
    spaces.iter().all(|space| !has_name(space, name))
}

/// The space at this offset, or `None` where the bytes spell none.
fn space_at(bytes: &[u8], at: usize) -> Option<SpaceHead>
    requires { at + 24 ≤ length bytes.now }
    ensures found { IfSome result (λ space. HasSpace at bytes.now (space_of space)) }
    ensures only { (space : SpaceHead) → HasSpace at bytes.now (space_of space) → result ≡ Some space }
{
    let name = name_at(bytes, at)?;
    let pages = u32_at(bytes, at + 20);
    if matches!(pages, 1..=65_536) {
        Some(SpaceHead { name, pages })
    } else {
        None
    }
}

/// The space at this offset, or `None` where the bytes spell none or one before it has its name.
fn new_space_at(bytes: &[u8], at: usize, before: &[SpaceHead]) -> Option<SpaceHead>
    requires { at + 24 ≤ length bytes.now }
    ensures found { IfSome result (λ space. HasNewSpace at bytes.now (map space_of before.now) (space_of space)) }
    ensures only { (space : SpaceHead) → HasNewSpace at bytes.now (map space_of before.now) (space_of space) → result ≡ Some space }
{
    let space = space_at(bytes, at)?;
    if is_fresh(&space.name, before) {
        Some(space)
    } else {
        None
    }
}

/// The spaces with which the bytes begin, so many of them, or `None` where the bytes spell none or names come twice.
fn spaces_of(
    alloc: Global,
    bytes: &[u8],
    count: usize,
) -> Result<Option<Vec<SpaceHead>>, OutOfMemory>
    requires { 24 * count ≤ length bytes.now }
    ensures found { IfOk result (λ read. IfSome read (λ spaces. (length spaces.items ≡ count) × BeginsWithSpaces bytes.now (map space_of spaces.items))) }
    ensures only { (spaces : List Space) → length spaces ≡ count → BeginsWithSpaces bytes.now spaces → IfOk result IsSome }
{
    let mut spaces = Vec::new(alloc);
    for i in 0..count {
        let Some(space) = new_space_at(bytes, 24 * i, &spaces) else {
            return Ok(None);
        };
        spaces.push(space)?;
    }
    Ok(Some(spaces))
}

/// The spaces that stand one after another from this offset on, or `None` where the bytes spell none or names come twice.
pub(crate) fn spaces_from(
    alloc: Global,
    page: &[u8],
    at: usize,
    count: usize,
) -> Result<Option<Vec<SpaceHead>>, OutOfMemory>
    requires { at + 24 * count ≤ length page.now }
    ensures found { IfOk result (λ read. IfSome read (λ spaces. (length spaces.items ≡ count) × BeginsWithSpaces (drop at page.now) (map space_of spaces.items))) }
    ensures only { (spaces : List Space) → length spaces ≡ count → BeginsWithSpaces (drop at page.now) spaces → IfOk result IsSome }
{
    spaces_of(alloc, &page[at..], count)
}
