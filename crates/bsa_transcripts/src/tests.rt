//! The texts of answers, and the record of fields.
ghost use Rattle.std.specs.Prelude.{IfOk};
ghost use Rattle.bsa_lines.specs.BsaLine.{line_of_bsa};
ghost use Rattle.bsa_lines.specs.Lines.{IsLine};

use crate::{Fields, Reply, reply_text};
use bsa_descriptor::{CopyType, Descriptor, ObjectStatus, ObjectType, Text};
use bsa_lines::{BsaLine, read_bsa_line};
use session_machine::{Access, BsaRc, Lack};
use std::test::Fail;

fn line(text: &[u8]) -> Result<BsaLine, Fail>
    ensures { IfOk result (λ line. IsLine (line_of_bsa line)) }
{
    match read_bsa_line(text) {
        Ok(Some(line)) => Ok(line),
        _ => Err(Fail::from("it is no line")),
    }
}

#[test]
fn the_record_of_the_fields_is_a_descriptors(rt: HostRuntime) -> Result<(), Fail> {
    let mut fields = Fields::empty();
    fields.take(&line(b"set space db")?);
    fields.take(&line(b"set path /a b")?);
    fields.take(&line(b"set order 258")?);
    fields.take(&line(b"set copytype backup")?);
    fields.take(&line(b"set objecttype log")?);
    fields.take(&line(b"begin")?);
    let mut record = [9; 2624];
    fields.encode_into(&mut record);
    let mut descriptor = Descriptor::empty();
    descriptor.space = Text::from_bytes(b"db").ok_or("it fits")?;
    descriptor.path = Text::from_bytes(b"/a b").ok_or("it fits")?;
    descriptor.restore_order = 258;
    descriptor.copy_type = CopyType::Backup;
    descriptor.object_type = ObjectType::Log;
    assert_eq!(rt; Descriptor::decode(&record), Some(descriptor));
    fields.take(&line(b"set resource 0123456789012345678901234567890")?);
    fields.encode_into(&mut record);
    assert_eq!(rt; Descriptor::decode(&record), None);
    Ok(())
}

#[test]
fn answers_are_printed(rt: HostRuntime) -> Result<(), Fail> {
    let alloc = rt.alloc();
    let code = |code| reply_text(alloc, &Reply::Code(code));
    assert_eq!(rt; code(BsaRc::Success)?.as_str(), "Success\n");
    assert_eq!(rt;
        code(BsaRc::NoResources(Lack::Slots))?.as_str(),
        "NoResources\n"
    );
    assert_eq!(rt;
        code(BsaRc::AccessFailure(Access::Ends))?.as_str(),
        "AccessFailure\n"
    );
    let mut descriptor = Descriptor::empty();
    descriptor.space = Text::from_bytes(b"db").ok_or("it fits")?;
    descriptor.path = Text::from_bytes(b"/a").ok_or("it fits")?;
    descriptor.copy_type = CopyType::Archive;
    descriptor.object_type = ObjectType::Log;
    descriptor.status = ObjectStatus::NotMostRecent;
    let found = Reply::Found {
        copy: 7,
        size: 12,
        descriptor,
    };
    assert_eq!(rt;
        reply_text(alloc, &found)?.as_str(),
        "Success copy 7 archive log notmostrecent size 12\n space db\n path /a\n"
    );
    let copies = Vec::from_slice(alloc, &[3, 4])?;
    assert_eq!(rt;
        reply_text(alloc, &Reply::Ended { copies })?.as_str(),
        "Success copy 3 copy 4\n"
    );
    Ok(())
}
