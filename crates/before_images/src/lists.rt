// The list of the pages in the first 4,096 bytes of a region, its gate's byte taken as 0.
ghost use Rattle.std.specs.Prelude.{◌≡◌, ℕ, ◌+◌, ◌-◌, ◌*◌, ◌<◌, ◌≤◌, ◌++◌, ◌&&◌, nat_eq, length, take, drop, replicate, IsTrue, true, IfSome};
ghost use Rattle.before_images.specs.Saved.{u32_at, u64_at, count_in, numbers, all_zero, is_among, are_distinct, are_below, is_sound, list_len, front_bytes, page_bytes, spelled};

/// The length of a page, of an image and of the list.
pub(crate) const PAGE_LEN: usize = 4096;

/// The number in the four bytes at a place.
#[tactic(auto, unfolding(crate::specs::Saved::u32_at))]
pub(crate) fn u32_at(head: &[u8], at: usize) -> u32
    requires { at + 4 ≤ length head.now }
    ensures { result ≡ u32_at at head.now }
{
    let mut number = [0; 4];
    number.copy_from_slice(&head[at..at + 4]);
    u32::from_be_bytes(number)
}

#[tactic(auto, unfolding(crate::specs::Saved::u64_at))]
fn u64_at(head: &[u8], at: usize) -> u64
    requires { at + 8 ≤ length head.now }
    ensures { result ≡ u64_at at head.now }
{
    let mut number = [0; 8];
    number.copy_from_slice(&head[at..at + 8]);
    u64::from_be_bytes(number)
}

/// The number of the i-th page.
pub(crate) fn page_at(head: &[u8], i: usize) -> u32
    requires { 32 + 4 * (i + 1) ≤ length head.now }
    ensures { result ≡ u32_at (32 + 4 * i) head.now }
{
    u32_at(head, 32 + 4 * i)
}

fn is_zero(bytes: &[u8]) -> bool
    ensures { result ≡ all_zero bytes.now }
{
    for byte in bytes {
        if *byte != 0 {
            return false;
        }
    }
    true
}

// Whether a page is among those from a place in the list on.
fn is_named(head: &[u8], page: u32, from: usize, count: usize) -> bool
    requires order { from ≤ count }
    requires within { 32 + 4 * count ≤ length head.now }
    ensures { result ≡ is_among page (numbers from (count - from) head.now) }
{
    for i in from..count {
        if page_at(head, i) == page {
            return true;
        }
    }
    false
}

// Whether no page is named twice.
fn names_each_once(head: &[u8], count: usize) -> bool
    requires { 32 + 4 * count ≤ length head.now }
    ensures { result ≡ are_distinct (numbers 0 count head.now) }
{
    for i in 0..count {
        if is_named(head, page_at(head, i), i + 1, count) {
            return false;
        }
    }
    true
}

// Whether all pages are below a limit.
fn names_below(head: &[u8], count: usize, limit: u32) -> bool
    requires { 32 + 4 * count ≤ length head.now }
    ensures { result ≡ are_below limit (numbers 0 count head.now) }
{
    for i in 0..count {
        if page_at(head, i) >= limit {
            return false;
        }
    }
    true
}

// Whether the rest of a list is in the grammar, once its count is.
fn is_sound(head: &[u8], count: usize) -> bool
    requires { 32 + 4 * count ≤ length head.now }
    ensures { result ≡ is_sound count head.now }
{
    is_zero(&head[..16]) && is_zero(&head[32 + 4 * count..]) && names_each_once(head, count)
}

/// The number of pages of a list in the grammar.
pub(crate) fn list_len(head: &[u8]) -> Option<usize>
    ensures count { result ≡ list_len head.now }
    ensures fits { IfSome result (λ count. 32 + 4 * count ≤ length head.now) }
    ensures few { IfSome result (λ count. count ≤ 16) }
{
    if head.len() != PAGE_LEN {
        return None;
    }
    let count = u32_at(head, 28) as usize;
    if count == 0 || count > 16 || !is_sound(head, count) {
        return None;
    }
    Some(count)
}

// Whether a list is of this place.
fn is_of(head: &[u8], from: (u64, u32)) -> bool
    requires { 32 ≤ length head.now }
    ensures { result ≡ (nat_eq (u64_at 16 head.now) from.0 && nat_eq (u32_at 24 head.now) from.1) }
{
    u64_at(head, 16) == from.0 && u32_at(head, 24) == from.1
}

/// Whether a list is of this place, with all of its pages below a limit.
pub(crate) fn applies_to(head: &[u8], count: usize, limit: u32, from: (u64, u32)) -> bool
    requires { 32 + 4 * count ≤ length head.now }
    ensures { result ≡ (nat_eq (u64_at 16 head.now) from.0 && nat_eq (u32_at 24 head.now) from.1 && are_below limit (numbers 0 count head.now)) }
{
    is_of(head, from) && names_below(head, count, limit)
}

fn write_bytes(into: &mut [u8], at: usize, bytes: &[u8])
    requires { at + length bytes.now ≤ length into.old }
    ensures { take (at + length bytes.now) into.new ≡ take at into.old ++ bytes.now }
{
    into[at..at + bytes.len()].copy_from_slice(bytes);
}

fn write_zeros(into: &mut [u8], at: usize, count: usize)
    requires { at + count ≤ length into.old }
    ensures { take (at + count) into.new ≡ take at into.old ++ replicate count 0 }
{
    into[at..at + count].fill(0);
}

// The first 32 bytes of a list.
fn write_front(head: &mut [u8], from: (u64, u32), count: u32)
    requires { 32 ≤ length head.old }
    ensures { take 32 head.new ≡ front_bytes from.0 from.1 count }
{
    write_zeros(head, 0, 16);
    write_bytes(head, 16, &from.0.to_be_bytes());
    write_bytes(head, 24, &from.1.to_be_bytes());
    write_bytes(head, 28, &count.to_be_bytes());
}

// The page numbers behind them.
fn write_pages(head: &mut [u8], pages: &[u32])
    requires { 32 + 4 * length pages.now ≤ length head.old }
    ensures { take (32 + 4 * length pages.now) head.new ≡ take 32 head.old ++ page_bytes pages.now }
{
    for (i, page) in pages.iter().enumerate() {
        write_bytes(head, 32 + 4 * i, &page.to_be_bytes());
    }
}

/// Writes a list into a region.
pub(crate) fn write_list(region: &mut [u8], from: (u64, u32), pages: &[u32])
    requires room { 4096 ≤ length region.old }
    requires few { length pages.now ≤ 16 }
    ensures { take 4096 region.new ≡ spelled from.0 from.1 pages.now }
{
    write_front(region, from, pages.len() as u32);
    write_pages(region, pages);
    let end = 32 + 4 * pages.len();
    write_zeros(region, end, PAGE_LEN - end);
}
