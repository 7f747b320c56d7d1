//! Laws of journals, each as the contract of a function that does nothing.
ghost use Rattle.std.specs.Prelude.{◌≡◌, ◌+◌, ◌*◌, ◌≤◌, ℕ, Bool, List, length};
ghost use Rattle.site_disk.specs.Bytes.{extent};
ghost use Rattle.gated_slots.specs.Slots.{Area, used};
ghost use Rattle.site_headers.specs.Heads.{Head};
ghost use Rattle.catalogue_replay.specs.Contents.{Contents, AreContents};
ghost use Rattle.catalogue_replay.specs.Places.{area_of, Journals};
ghost use Rattle.catalogue_replay.specs.Answers.{IsRefusal, IsCatalogue, IsBadJournal, IsBadCatalogue};
ghost use Rattle.catalogue_replay.specs.declared.faults.CatFault.{CatFault};
ghost use Rattle.catalogue_replay.specs.declared.faults.CatFault.TheVariants.{BadRecord};

/// Bytes show at most one journal of an area, and its contents are sound.
pub fn one_journal()
    ensures once { (area : Area) (a b : Contents) (bytes : List ℕ) → Journals area a bytes → Journals area b bytes → a ≡ b }
    ensures sound { (area : Area) (contents : Contents) (bytes : List ℕ) → Journals area contents bytes → AreContents contents }
{}

/// A journal stands where the gates and the slots used are the same, whatever the other bytes are.
pub fn journal_stays()
    ensures { (capacity : ℕ) (contents : Contents) (old new : List ℕ) → Journals (area_of capacity) contents old
        → extent 8192 capacity new ≡ extent 8192 capacity old
        → extent 73728 (4096 * used (area_of capacity) old) new ≡ extent 73728 (4096 * used (area_of capacity) old) old
        → length old ≤ length new → Journals (area_of capacity) contents new }
{}

/// Where a journal stands no slot is bad, and a catalogue of which each part stands isn't refused.
pub fn journal_not_bad()
    ensures slots { (capacity : ℕ) (contents : Contents) (bytes : List ℕ) (spare : Bool) (slot : ℕ)
        → Journals (area_of capacity) contents bytes → IsBadJournal (area_of capacity) bytes (BadRecord spare slot) → ⊥ }
    ensures opens { (capacity : ℕ) (head : Head) (contents : Contents) (bytes spare : List ℕ) (fault : CatFault)
        → IsCatalogue capacity head contents bytes spare → IsRefusal fault → IsBadCatalogue (area_of capacity) bytes spare fault → ⊥ }
{}
