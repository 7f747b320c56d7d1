// Bytes from one place in memory to another.
ghost use Rattle.std.specs.Prelude.{◌≡◌, length, take, drop, min};
ghost use Rattle.site_disk.specs.Bytes.{extent};
ghost use Rattle.site_disk.specs.Streams.{Takes};

/// Moves bytes to the front of a buffer, as many as there are and as it takes.
pub fn move_front(from: &[u8], into: &mut [u8]) -> usize
    ensures count { result ≡ min (length from.now) (length into.old) }
    ensures taken { Takes from.now (drop result from.now) into.old into.new result }
{
    let n = from.len().min(into.len());
    into[..n].copy_from_slice(&from[..n]);
    n
}

/// Copies what stands from a place on to the front of a buffer, as much as there is and as it takes.
pub fn copy_from(bytes: &[u8], at: u64, into: &mut [u8]) -> usize
    ensures count { result ≡ length (extent at (length into.old) bytes.now) }
    ensures found { take result into.new ≡ extent at result bytes.now }
    ensures rest { drop result into.new ≡ drop result into.old }
{
    let from = at.min(bytes.len() as u64) as usize;
    move_front(&bytes[from..], into)
}
