// What formatting fixes of a site.
use bsa_descriptor::Text;

/// A dbspace: its name, and its number of pages of 4,096 bytes.
#[derive(Clone, Debug, PartialEq, Eq, Drop)]
pub struct SpaceHead {
    pub name: Text<19>,
    pub pages: u32,
}

/// The site's id, which is the moment of formatting, the blocks of 4,096 bytes of a volume, the spaces.
#[derive(Debug, Drop)]
pub struct SiteHead {
    pub site: u64,
    pub blocks: u32,
    pub spaces: Vec<SpaceHead>,
}
