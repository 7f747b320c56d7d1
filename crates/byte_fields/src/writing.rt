//! Fields written at their offsets. What stands before and behind them stays.
ghost use Rattle.std.specs.Prelude.{◌≡◌, ◌+◌, ◌-◌, ◌≤◌, ◌++◌, length, take, drop, replicate};
ghost use Rattle.std.specs.Int.{to_be_bytes, w16, w32, w64};
ghost use Rattle.byte_fields.specs.Fields.{padded};

/// Writes the bytes at this offset.
pub fn write_bytes(into: &mut [u8], offset: usize, bytes: &[u8])
    requires { offset + length bytes.now ≤ length into.old }
    ensures written { take (offset + length bytes.now) into.new ≡ take offset into.old ++ bytes.now }
    ensures behind { drop (offset + length bytes.now) into.new ≡ drop (offset + length bytes.now) into.old }
{
    into[offset..offset + bytes.len()].copy_from_slice(bytes);
}

/// Writes this many zeros at this offset.
pub fn write_zeros(into: &mut [u8], offset: usize, count: usize)
    requires { offset + count ≤ length into.old }
    ensures written { take (offset + count) into.new ≡ take offset into.old ++ replicate count 0 }
    ensures behind { drop (offset + count) into.new ≡ drop (offset + count) into.old }
{
    into[offset..offset + count].fill(0);
}

/// Writes zeros from this offset to the end.
pub fn write_zeros_from(into: &mut [u8], offset: usize)
    requires { offset ≤ length into.old }
    ensures { into.new ≡ take offset into.old ++ replicate (length into.old - offset) 0 }
{
    into[offset..].fill(0);
}

/// Writes the text at this offset, and zeros behind it up to this width.
pub fn write_text(into: &mut [u8], offset: usize, width: usize, text: &[u8])
    requires fits { length text.now ≤ width }
    requires place { offset + width ≤ length into.old }
    ensures written { take (offset + width) into.new ≡ take offset into.old ++ padded width text.now }
    ensures behind { drop (offset + width) into.new ≡ drop (offset + width) into.old }
{
    write_bytes(into, offset, text);
    write_zeros(into, offset + text.len(), width - text.len());
}

/// Writes the number at this offset, in two bytes.
pub fn write_u16(into: &mut [u8], offset: usize, number: u16)
    requires { offset + 2 ≤ length into.old }
    ensures written { take (offset + 2) into.new ≡ take offset into.old ++ to_be_bytes w16 number }
    ensures behind { drop (offset + 2) into.new ≡ drop (offset + 2) into.old }
{
    write_bytes(into, offset, &number.to_be_bytes());
}

/// Writes the number at this offset, in four bytes.
pub fn write_u32(into: &mut [u8], offset: usize, number: u32)
    requires { offset + 4 ≤ length into.old }
    ensures written { take (offset + 4) into.new ≡ take offset into.old ++ to_be_bytes w32 number }
    ensures behind { drop (offset + 4) into.new ≡ drop (offset + 4) into.old }
{
    write_bytes(into, offset, &number.to_be_bytes());
}

/// Writes the number at this offset, in eight bytes.
pub fn write_u64(into: &mut [u8], offset: usize, number: u64)
    requires { offset + 8 ≤ length into.old }
    ensures written { take (offset + 8) into.new ≡ take offset into.old ++ to_be_bytes w64 number }
    ensures behind { drop (offset + 8) into.new ≡ drop (offset + 8) into.old }
{
    write_bytes(into, offset, &number.to_be_bytes());
}
