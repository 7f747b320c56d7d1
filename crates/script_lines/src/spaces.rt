//! The spaces of a site, as script lines name them.
ghost use Rattle.std.specs.Prelude.{◌≡◌, ◌≤◌, length};
ghost use Rattle.onbar_grammar.specs.Script.{place_of};
ghost use Rattle.site_headers.specs.Views.{spaces_of};

use site_headers::SpaceHead;

/// The place of the space with a name, and its number of pages.
pub fn find_space(name: &[u8], spaces: &[SpaceHead]) -> Option<(u16, u32)>
    requires { length spaces.now ≤ 16 }
    ensures { result ≡ place_of name.now (spaces_of spaces.now) }
{
    for (place, space) in spaces.iter().enumerate() {
        if space.name.as_bytes() == name {
            return Some((place as u16, space.pages));
        }
    }
    None
}
