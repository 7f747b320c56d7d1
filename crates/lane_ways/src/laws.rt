//! The laws, each as the contract of a function.
ghost use Rattle.std.specs.Prelude.{◌≡◌, ◌<◌, ◌≤◌, ◌+◌, ◌++◌, ℕ, List, [], length, take, drop, fold, true, false, Some};
ghost use Rattle.std.specs.List.{AllByRecursion};
ghost use Rattle.log_history.specs.History.{History};
ghost use Rattle.log_history.specs.Live.{live, reset_points};
ghost use Rattle.log_history.specs.Effects.{Change, Page, page_at, with_change};
ghost use Rattle.space_pages.specs.Pages.{brought, pages_of};
ghost use Rattle.lane_ways.specs.Ways.{IsNotBefore, IsPlace, changes_behind, cut, laid_at, lane_changes, lane_page, lane_pages, page_with, pages_with};
ghost use Rattle.before_images.specs.Saved.{MaySave, Saved, Saves, Within, are_below, is_among, saved_at};
ghost use Rattle.twin_mark.specs.Marks.{MayStore};
ghost use Rattle.lane_ways.specs.Pictures.{MayMove, Picture, Shows, Stand, images_at, mark_at, pages_at};
ghost use Rattle.lane_ways.specs.Steps.{and_more, place_behind, step_of, step_pages, taken_from};
ghost use Rattle.lane_ways.specs.StepLaws.{IsStep};
ghost use Rattle.lane_ways.specs.RestLaws.{IsBehindStep};
ghost use Rattle.lane_ways.specs.WayLaws.{IsIdle};

/// With all changes of its way laid a lane has the pages of the position that the way leads to.
pub fn all_changes_laid_give_the_pages()
    ensures page { (history : History) (n space number count : ℕ) → length (lane_changes history n space) ≤ count
        → page_with (lane_changes history n space) count space number ≡ page_at history n space number }
    ensures pages { (history : History) (n space pages count : ℕ) → length (lane_changes history n space) ≤ count
        → pages_with (lane_changes history n space) count space pages ≡ pages_of history n space 0 pages }
{}

/// A batch without a Reset only adds to the way: each place is a place still, and has the pages that it had.
pub fn a_batch_only_adds_to_the_way()
    ensures way { (history more : History) (space : ℕ) → reset_points more ≡ []
        → lane_changes (history ++ more) (length (history ++ more)) space
        ≡ lane_changes history (length history) space ++ changes_behind (length history) (lane_changes (history ++ more) (length (history ++ more)) space) }
    ensures place { (history more : History) (space upto part : ℕ) → reset_points more ≡ [] → IsPlace history (length history) space upto part
        → IsPlace (history ++ more) (length (history ++ more)) space upto part }
    ensures laid { (history more : History) (space upto part : ℕ) → reset_points more ≡ [] → upto ≤ length history
        → laid_at (lane_changes (history ++ more) (length (history ++ more)) space) upto part ≡ laid_at (lane_changes history (length history) space) upto part }
    ensures page { (history more : History) (space upto part number : ℕ) → reset_points more ≡ [] → IsPlace history (length history) space upto part
        → lane_page (history ++ more) (length (history ++ more)) space upto part number ≡ lane_page history (length history) space upto part number }
    ensures pages { (history more : History) (space upto part pages : ℕ) → reset_points more ≡ [] → IsPlace history (length history) space upto part
        → lane_pages (history ++ more) (length (history ++ more)) space upto part pages ≡ lane_pages history (length history) space upto part pages }
{}

/// At a live position with nothing more laid a lane has the pages of that position. Of two live positions, at the earlier one with
/// the Writes up to the later one laid, and so many more, as much is laid as at the later one.
pub fn a_live_position_has_its_pages()
    ensures page { (history : History) (q a space number : ℕ) → live history q a ≡ true → lane_page history q space a 0 number ≡ page_at history a space number }
    ensures pages { (history : History) (q a space pages : ℕ) → live history q a ≡ true → lane_pages history q space a 0 pages ≡ pages_of history a space 0 pages }
    ensures along { (history : History) (q a b space part : ℕ) → live history q a ≡ true → live history q b ≡ true → a ≤ b
        → laid_at (lane_changes history q space) a (length (changes_behind a (lane_changes history b space)) + part) ≡ laid_at (lane_changes history q space) b part }
{}

/// A place may as well stand behind commits that write nothing into the space: as much is laid there.
pub fn commits_elsewhere_move_nothing()
    ensures place { (history : History) (n space a b part : ℕ) → a ≤ b → live history n b ≡ true → IsIdle (lane_changes history n space) a b
        → IsPlace history n space a part → IsPlace history n space b part }
    ensures laid { (way : List Change) (a b part : ℕ) → a ≤ b → IsIdle way a b → laid_at way a part ≡ laid_at way b part }
{}

/// At a place no more is laid than the way has.
pub fn a_place_lies_on_the_way()
    ensures { (history : History) (n space upto part : ℕ) → IsPlace history n space upto part
        → laid_at (lane_changes history n space) upto part ≤ length (lane_changes history n space) }
{}

/// The cut behind so many changes is a place on the way, and lays exactly so many, where the work goes on from a live position.
pub fn a_cut_is_a_place()
    ensures place { (history : History) (n space from count : ℕ) → live history n from ≡ true → laid_at (lane_changes history n space) from 0 ≤ count
        → IsPlace history n space (cut from (lane_changes history n space) n count).upto (cut from (lane_changes history n space) n count).part }
    ensures lays { (history : History) (n space from count : ℕ) → live history n from ≡ true → laid_at (lane_changes history n space) from 0 ≤ count
        → count ≤ length (lane_changes history n space)
        → laid_at (lane_changes history n space) (cut from (lane_changes history n space) n count).upto (cut from (lane_changes history n space) n count).part ≡ count }
{}

/// A cut of work that goes on from a place isn't before it, and one that lays more than a place is another place.
pub fn cuts_are_in_order()
    ensures not_before { (history : History) (n space upto part count : ℕ) → IsPlace history n space upto part
        → laid_at (lane_changes history n space) upto part ≤ count → count ≤ length (lane_changes history n space)
        → IsNotBefore upto part (cut upto (lane_changes history n space) n count).upto (cut upto (lane_changes history n space) n count).part }
    ensures differs { (history : History) (n space from upto part count : ℕ) → live history n from ≡ true → laid_at (lane_changes history n space) from 0 ≤ count
        → laid_at (lane_changes history n space) upto part < count → count ≤ length (lane_changes history n space)
        → (cut from (lane_changes history n space) n count).upto ≡ upto → (cut from (lane_changes history n space) n count).part ≡ part → ⊥ }
{}

/// What is handed over of a way behind a place, but for the Writes that are laid, is what the way still has; and its cuts are the way's.
pub fn the_rest_is_what_lies_behind()
    ensures rest { (history : History) (n space upto part : ℕ)
        → drop (laid_at (lane_changes history n space) upto part) (lane_changes history n space) ≡ drop part (changes_behind upto (lane_changes history n space)) }
    ensures cuts { (history : History) (n space upto count : ℕ)
        → cut upto (lane_changes history n space) n (laid_at (lane_changes history n space) upto count) ≡ cut upto (changes_behind upto (lane_changes history n space)) n count }
{}

/// With all laid the cut is the position that the way leads to, and before that it stands before that position.
pub fn the_way_ends_where_it_leads()
    ensures end { (history : History) (n space from count : ℕ) → length (lane_changes history n space) ≤ count
        → cut from (lane_changes history n space) n count ≡ record { upto = n; part = 0 } }
    ensures before { (history : History) (n space from count : ℕ) → laid_at (lane_changes history n space) from 0 ≤ count
        → count < length (lane_changes history n space) → (cut from (lane_changes history n space) n count).upto < n }
{}

/// A step takes changes at the front of those that are left, of at most so many distinct pages: all of them, or of exactly so many pages;
/// and at least one where any is left. Its pages are below an end where those of the changes are.
pub fn a_step_takes_what_it_can()
    ensures step { (limit : ℕ) (left : List Change) → IsStep limit left (taken_from limit [] left) }
    ensures some { (limit : ℕ) (left : List Change) → 1 ≤ limit → 1 ≤ length left → 1 ≤ step_of limit left }
    ensures below { (limit end : ℕ) (left : List Change) → AllByRecursion (λ (change : Change). change.patch.page < end) left
        → are_below end (step_pages limit left) ≡ true }
{}

/// Changes that are taken one after another are taken at once.
pub fn a_step_goes_on_behind_its_front()
    ensures { (limit : ℕ) (pages : List ℕ) (front rest : List Change) → (taken_from limit pages front).count ≡ length front
        → taken_from limit pages (front ++ rest) ≡ and_more (length front) (taken_from limit (taken_from limit pages front).pages rest) }
{}

/// Changes that are laid behind others bring the pages further; a page that isn't among those of the changes stays.
pub fn changes_bring_their_pages_further()
    ensures page { (way : List Change) (laid more space number : ℕ)
        → page_with way (laid + more) space number ≡ fold (with_change space number) (page_with way laid space number) (take more (drop laid way)) }
    ensures pages { (way : List Change) (laid more space pages : ℕ)
        → pages_with way (laid + more) space pages ≡ brought space 0 (take more (drop laid way)) (pages_with way laid space pages) }
    ensures apart { (space number : ℕ) (pages : List ℕ) (page : Page) (list : List Change) → is_among number pages ≡ false
        → AllByRecursion (λ (change : Change). is_among change.patch.page pages ≡ true) list → fold (with_change space number) page list ≡ page }
{}

/// Behind a step from a place stands a place that lays what the step laid, isn't before the old one, and where any change was left is another.
pub fn behind_a_step_stands_its_place()
    ensures { (history : History) (n space limit upto part : ℕ) → 1 ≤ limit
        → laid_at (lane_changes history n space) upto part ≤ length (lane_changes history n space) → IsPlace history n space upto part
        → IsBehindStep history n space limit upto part (place_behind upto limit (lane_changes history n space) n (laid_at (lane_changes history n space) upto part)) }
{}

/// While pages that stand are saved for the place of a chunk, and while they are written then, it shows what it did; and where the mark of
/// the next place is stored behind them, it shows that or what it did.
pub fn a_stop_within_a_step_leaves_a_place()
    ensures saving { (picture : Picture) (pages old new : List ℕ) → are_below (length picture.pages) pages ≡ true → Shows picture old
        → Stand picture.space 0 picture.pages old → MaySave images_at pages_at picture.upto picture.part pages old new → Shows picture new }
    ensures writing { (picture : Picture) (pages old saved since : List ℕ) → are_below (length picture.pages) pages ≡ true → Shows picture old
        → Stand picture.space 0 picture.pages old → Saves images_at pages_at picture.upto picture.part pages old saved
        → Within pages_at (length picture.pages) pages saved since → Shows picture since }
    ensures marking { (first second : Picture) (saved : Saved) (old new : List ℕ) → second.header ≡ first.header → length second.pages ≡ length first.pages
        → Shows first old → Stand second.space 0 second.pages old → saved_at images_at old ≡ Some saved
        → (saved.upto ≡ second.upto → saved.part ≡ second.part → ⊥) → MayStore mark_at second.record_there old new → MayMove first second new }
{}
