//! Laws of headers, each as the contract of a function that does nothing.
ghost use Rattle.std.specs.Prelude.{◌≡◌, ◌<◌, ◌≤◌, ◌∷◌, ℕ, List, length};
ghost use Rattle.site_disk.specs.Bytes.{extent};
ghost use Rattle.site_headers.specs.Heads.{Head, IsHead};
ghost use Rattle.site_headers.specs.Headers.{catalogue_tail, log_tail, spare_tail, volume_tail, HasHeader};

/// A page is the catalogue's header of at most one site.
pub fn one_catalogue_header()
    ensures { (a b : Head) → IsHead a → IsHead b → catalogue_tail a ≡ catalogue_tail b → a ≡ b }
{}

/// A header fills its page: behind the gate come 4,095 bytes.
pub fn header_fills_its_page()
    ensures log { (site : ℕ) → length (log_tail site) ≡ 4095 }
    ensures spare { (site : ℕ) → length (spare_tail site) ≡ 4095 }
    ensures volume { (number site blocks : ℕ) → length (volume_tail number site blocks) ≡ 4095 }
    ensures catalogue { (head : Head) → IsHead head → length (catalogue_tail head) ≡ 4095 }
{}

/// A disk has a header exactly where its first page is an open gate and the header's bytes, so it stands where that
/// page stays.
pub fn header_is_the_first_page()
    ensures stays { (tail old new : List ℕ) → extent 0 4096 new ≡ extent 0 4096 old → HasHeader tail old → HasHeader tail new }
    ensures within { (tail file : List ℕ) → length tail ≡ 4095 → HasHeader tail file → 4096 ≤ length file }
    ensures opened { (gate : ℕ) (tail file : List ℕ) → 0 < gate → length tail ≡ 4095 → extent 0 4096 file ≡ gate ∷ tail → HasHeader tail file }
    ensures page { (tail file : List ℕ) (has : HasHeader tail file) → extent 0 4096 file ≡ has.gate ∷ tail }
{}
