//! A Write in effect.
ghost use Rattle.std.specs.Prelude.{◌≡◌, map};
ghost use Rattle.log_history.specs.Effects.{change_by};
ghost use Rattle.txn_table.specs.Table.{patch_of, change_of};

use log_record::Text64;

/// A Write in effect, and the position of the Commit that brought it.
#[derive(Debug, PartialEq, Eq, Drop)]
pub struct Change {
    /// The position of the Commit.
    pub commit: u64,
    /// The space written to.
    pub space: u16,
    /// The page's number in its space.
    pub page: u32,
    /// Where in the page's payload the bytes begin.
    pub offset: u16,
    /// The bytes written.
    pub bytes: Text64,
}

/// The Commit at this position brings the changes.
fn mark(changes: &mut [Change], commit: u64)
    ensures { map change_of changes.new ≡ map (change_by commit) (map patch_of changes.old) }
{
    for change in changes.iter_mut() {
        change.commit = commit;
    }
}

/// The changes, brought by the Commit at this position.
pub(crate) fn brought_by(mut changes: Vec<Change>, commit: u64) -> Vec<Change>
    ensures { map change_of result.items ≡ map (change_by commit) (map patch_of changes.items) }
{
    mark(&mut changes, commit);
    changes
}
