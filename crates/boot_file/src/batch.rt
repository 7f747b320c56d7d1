//! Lines that are appended: their bytes, and their place in memory.
ghost use Rattle.std.specs.Prelude.{◌≡◌, ◌+◌, ◌*◌, ◌≤◌, ◌++◌, length, IfOk, vec_len, vec_capacity};
ghost use Rattle.std.specs.List.{flat_map};
ghost use Rattle.boot_lines.specs.LineLayout.{lines_of, spelling};

use backup_lines::Line;
use boot_lines::{LINE_LEN, encode_line};
use std::alloc::{AllocError, Global};

/// The bytes of so many lines, one behind another.
pub(crate) fn spelled(alloc: Global, lines: &[Line]) -> Result<Vec<u8>, AllocError>
    requires { length lines.now ≤ 65536 }
    ensures { IfOk result (λ bytes. bytes.items ≡ flat_map spelling (lines_of lines.now)) }
{
    let mut bytes = Vec::with_capacity(alloc, LINE_LEN * lines.len())?;
    for line in lines {
        bytes.extend_from_slice(&encode_line(line))?;
    }
    Ok(bytes)
}

/// Puts lines behind others, for which there is room.
pub(crate) fn put_behind(lines: &mut Vec<Line>, more: &[Line])
    requires { vec_len lines.old + length more.now ≤ vec_capacity lines.old }
    ensures { lines_of lines.new.items ≡ lines_of lines.old.items ++ lines_of more.now }
{
    let _ = lines.extend_from_slice(more);
}
