//! The laws, each as the contract of a function.
ghost use Rattle.std.specs.Prelude.{◌≡◌, ℕ, ◌+◌, ◌*◌, ◌^◌, ◌<◌, ◌≤◌, List, [], ◌∷◌, ◌++◌, length, take, drop, Some, slice_get, true, false};
ghost use Rattle.std.specs.List.{AllByRecursion, flat_map};
ghost use Rattle.std.specs.Int.{w64};
ghost use Rattle.byte_fields.specs.Fields.{number_at};
ghost use Rattle.log_history.specs.Effects.{Page};
ghost use Rattle.level_archive.specs.declared.head.ImageHead.{ImageHead};
ghost use Rattle.level_archive.specs.Image.{Entry, IsImageSize, entries_from, entry, entry_bytes, head_bytes, image_blocks};
ghost use Rattle.level_archive.specs.Reading.{Begins, Gives, HasEntry, HasRead, MayFollow, Reading, RefusesEntry, RefusesHead, new_reading};
ghost use Rattle.level_archive.specs.Making.{Making, Reaches, blocks_left, new_making, with_entry, with_head};
ghost use Rattle.level_archive.specs.BlockLaws.{IsBlock};

/// The pages of a space, with stamps of at most the archive's position, have entries that a reader takes one behind another, in so
/// many blocks as an image may have.
pub fn the_entries_of_pages_are_read()
    ensures follow { (head : ImageHead) (pages : List Page) → AllByRecursion (λ page. page.stamp ≤ head.at) pages
        → MayFollow head (length pages) 0 (entries_from head.base 0 pages) }
    ensures size { (base : ℕ) (pages : List Page) → IsImageSize (length pages) (4096 * (length (entries_from base 0 pages) + 1)) }
{}

/// A reader goes from entry to entry: what it gave so far are entries of an image, and the next one of that image is taken.
pub fn a_reader_goes_on()
    ensures begins { (head : ImageHead) (pages size : ℕ) (block : List ℕ) (new : Reading) → Begins (new_reading head pages size) block new
        → (block ≡ head_bytes head) × HasRead head pages size [] new }
    ensures gives { (head : ImageHead) (pages size : ℕ) (given : List Entry) (old : Reading) → HasRead head pages size given old
        → (block : List ℕ) (number : ℕ) (new : Reading) → Gives old block number new
        → (e : Entry) × (e.number ≡ number) × (block ≡ entry_bytes head.space e) × HasRead head pages size (given ++ e ∷ []) new }
    ensures next { (head : ImageHead) (pages size : ℕ) (given : List Entry) (old : Reading) → HasRead head pages size given old
        → (e : Entry) (left : List Entry) → head.at < 2 ^ 64 → MayFollow head pages 0 (given ++ e ∷ left)
        → HasEntry old.head old.pages old.from (entry_bytes head.space e) e.number }
{}

/// A block is taken in one way at most: what is taken isn't refused, and an entry has one number.
pub fn a_block_is_taken_in_one_way()
    ensures head { (old : Reading) (block : List ℕ) (new : Reading) → Begins old block new → RefusesHead old block → ⊥ }
    ensures entry { (old : Reading) (block : List ℕ) (number : ℕ) (new : Reading) → Gives old block number new → RefusesEntry old block → ⊥ }
    ensures number { (head : ImageHead) (pages from : ℕ) (block : List ℕ) (a b : ℕ) → pages < 2 ^ 32 → HasEntry head pages from block a
        → HasEntry head pages from block b → a ≡ b }
{}

/// A new maker has the whole image left.
pub fn a_maker_begins_with_all()
    ensures { (head : ImageHead) (pages : List Page)
        → blocks_left pages (new_making head (length pages)) ≡ image_blocks head (entries_from head.base 0 pages) }
{}

/// A maker that was handed the pages up to a number: the head is given first, a page with a stamp above the base is the next block, any
/// other is passed over, and behind the last page no block is left.
pub fn a_maker_goes_on()
    ensures head { (pages : List Page) (making : Making) → making.is_begun ≡ false
        → blocks_left pages making ≡ head_bytes making.head ∷ blocks_left pages (with_head making) }
    ensures given { (pages : List Page) (making : Making) (number : ℕ) → Reaches pages making number
        → (page : Page) → slice_get pages number ≡ Some page → making.is_begun ≡ true → making.head.base < page.stamp
        → blocks_left pages making ≡ entry_bytes making.head.space (entry number page) ∷ blocks_left pages (with_entry number making) }
    ensures passed { (pages : List Page) (making : Making) (number : ℕ) → Reaches pages making number
        → (page : Page) → slice_get pages number ≡ Some page → page.stamp ≤ making.head.base → Reaches pages making (number + 1) }
    ensures end { (pages : List Page) (making : Making) (number : ℕ) → Reaches pages making number
        → length pages ≤ number → making.is_begun ≡ true → blocks_left pages making ≡ [] }
{}

/// The blocks of an image have 4,096 bytes each where the payloads have 4,080, and each stands behind those before it. An entry's begins
/// with its page's stamp.
pub fn blocks_stand_one_behind_another()
    ensures whole { (head : ImageHead) (pages : List Page) → AllByRecursion (λ page. length page.payload ≡ 4080) pages
        → AllByRecursion IsBlock (image_blocks head (entries_from head.base 0 pages)) }
    ensures size { (blocks : List (List ℕ)) → AllByRecursion IsBlock blocks → length (flat_map (λ block. block) blocks) ≡ 4096 * length blocks }
    ensures place { (before : List (List ℕ)) (block : List ℕ) (behind : List (List ℕ)) → AllByRecursion IsBlock before → IsBlock block
        → take 4096 (drop (4096 * length before) (flat_map (λ b. b) (before ++ block ∷ behind))) ≡ block }
    ensures stamp { (space : ℕ) (e : Entry) (block : List ℕ) → e.page.stamp < 2 ^ 64 → block ≡ entry_bytes space e → number_at w64 0 block ≡ e.page.stamp }
{}
