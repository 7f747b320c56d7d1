// What the words of the contracts come to together.
ghost use Rattle.std.specs.Prelude.{◌≤◌, ℕ, List, length};
ghost use Rattle.before_images.specs.Saved.{Saved, place_of, restored, ComesBack, StaysWithin, SameRestored, OnlyPages, StaysAtOther};

/// Saved pages come back: whatever the pages hold since they were saved, putting back gives the bytes as they were then.
pub fn saved_pages_come_back()
    ensures { (base pages_at limit upto part : ℕ) (pages old saved since : List ℕ) → ComesBack base pages_at limit upto part pages old saved since }
{}

/// After one torn write of a saved page more, nothing but the saved pages has changed.
pub fn torn_pages_stay_within()
    ensures { (pages_at limit k : ℕ) (pages old mid new : List ℕ) → StaysWithin pages_at limit k pages old mid new }
{}

/// Files that keep the same and have the same pages have the same pages once they are put back, whatever else differs.
pub fn restored_pages_agree()
    ensures { (base pages_at limit upto part : ℕ) (c d : List ℕ) → SameRestored base pages_at limit upto part c d }
{}

/// Putting back changes nothing but pages.
pub fn only_pages_are_put_back()
    ensures { (base pages_at limit upto part : ℕ) (bytes : List ℕ) → place_of pages_at limit ≤ length bytes
        → OnlyPages pages_at limit bytes (restored base pages_at limit upto part bytes) }
{}

/// What is kept for one place of the work isn't put back at another.
pub fn another_place_keeps_its_pages()
    ensures { (base pages_at limit upto part : ℕ) (saved : Saved) (bytes : List ℕ) → StaysAtOther base pages_at limit upto part saved bytes }
{}
