//! Fields read at their offsets.
ghost use Rattle.std.specs.Prelude.{◌≡◌, ◌+◌, ◌<◌, ◌≤◌, ◌↔◌, ◌==◌, ℕ, List, [], ◌∷◌, length, drop, position, All, IsTrue, IsSomeAnd, IfSome};
ghost use Rattle.std.specs.Int.{w16, w32, w64};
ghost use Rattle.byte_fields.specs.Fields.{field, number_at, HasNumber, HasText};

/// The byte at this offset.
pub fn byte_at(bytes: &[u8], offset: usize) -> u8
    requires { offset < length bytes.now }
    ensures { field offset 1 bytes.now ≡ result ∷ [] }
{
    bytes[offset]
}

/// The number in the two bytes at this offset.
pub fn u16_at(bytes: &[u8], offset: usize) -> u16
    requires { offset + 2 ≤ length bytes.now }
    ensures number { result ≡ number_at w16 offset bytes.now }
    ensures found { HasNumber w16 offset bytes.now result }
    ensures only { (number : ℕ) → HasNumber w16 offset bytes.now number → result ≡ number }
{
    let mut number = [0; 2];
    number.copy_from_slice(&bytes[offset..offset + 2]);
    u16::from_be_bytes(number)
}

/// The number in the four bytes at this offset.
pub fn u32_at(bytes: &[u8], offset: usize) -> u32
    requires { offset + 4 ≤ length bytes.now }
    ensures number { result ≡ number_at w32 offset bytes.now }
    ensures found { HasNumber w32 offset bytes.now result }
    ensures only { (number : ℕ) → HasNumber w32 offset bytes.now number → result ≡ number }
{
    let mut number = [0; 4];
    number.copy_from_slice(&bytes[offset..offset + 4]);
    u32::from_be_bytes(number)
}

/// The number in the eight bytes at this offset.
pub fn u64_at(bytes: &[u8], offset: usize) -> u64
    requires { offset + 8 ≤ length bytes.now }
    ensures number { result ≡ number_at w64 offset bytes.now }
    ensures found { HasNumber w64 offset bytes.now result }
    ensures only { (number : ℕ) → HasNumber w64 offset bytes.now number → result ≡ number }
{
    let mut number = [0; 8];
    number.copy_from_slice(&bytes[offset..offset + 8]);
    u64::from_be_bytes(number)
}

/// Whether these bytes stand at this offset.
pub fn has_bytes(bytes: &[u8], offset: usize, wanted: &[u8]) -> bool
    requires { offset + length wanted.now ≤ length bytes.now }
    ensures { IsTrue result ↔ (field offset (length wanted.now) bytes.now ≡ wanted.now) }
{
    &bytes[offset..offset + wanted.len()] == wanted
}

/// Whether each byte from this offset on is zero.
pub fn is_zero_from(bytes: &[u8], offset: usize) -> bool
    requires { offset ≤ length bytes.now }
    ensures { IsTrue result ↔ All (λ byte. byte ≡ 0) (drop offset bytes.now) }
{
    bytes[offset..].iter().all(|byte| *byte == 0)
}

/// The offset of the first zero byte.
fn first_zero(bytes: &[u8]) -> Option<usize>
    ensures { result ≡ position (λ byte. byte == 0) bytes.now }
{
    bytes.iter().position(|byte| *byte == 0)
}

/// The text in the field of this width at this offset, or `None` where no zero byte ends it or another byte
/// stands behind that zero.
pub fn text_at(bytes: &[u8], offset: usize, width: usize) -> Option<&[u8]>
    requires { offset + width ≤ length bytes.now }
    ensures found { IfSome result (λ text. HasText offset width bytes.now text.now) }
    ensures only { (text : List ℕ) → HasText offset width bytes.now text → IsSomeAnd result (λ found. found.now ≡ text) }
{
    let field = &bytes[offset..offset + width];
    let end = first_zero(field)?;
    if is_zero_from(field, end) {
        Some(&field[..end])
    } else {
        None
    }
}
