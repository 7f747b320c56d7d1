//! What a form did.
use site_headers::SpaceHead;
use site_scripts::Extended;

/// What a form did that wasn't refused.
#[derive(Drop)]
pub enum Report {
    /// A site of these spaces was formatted.
    Formatted { spaces: Vec<SpaceHead> },
    /// The log was extended by a script.
    Extended(Extended),
    /// A space, or a page of it, was read: the lines that show it.
    Shown { text: String },
}
