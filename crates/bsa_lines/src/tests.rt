//! Lines of each kind, and lines that aren't in the table.
use crate::{BsaLine, TextField, read_bsa_line};
use arrayvec::ArrayVec;
use bsa_descriptor::{CopyType, ObjectStatus, ObjectType};
use onbar_grammar::Why;

#[test]
fn lines_of_calls_are_read(rt: HostRuntime) {
    assert_eq!(rt; read_bsa_line(b""), Ok(None));
    assert_eq!(rt;
        read_bsa_line(b"init 16"),
        Ok(Some(BsaLine::Init { volume: 16 }))
    );
    assert_eq!(rt; read_bsa_line(b"begin"), Ok(Some(BsaLine::Begin)));
    assert_eq!(rt;
        read_bsa_line(b"get 281474976710656"),
        Ok(Some(BsaLine::Get {
            copy: 281_474_976_710_656
        }))
    );
    assert_eq!(rt;
        read_bsa_line(b"data 4096"),
        Ok(Some(BsaLine::Data { count: 4_096 }))
    );
    assert_eq!(rt;
        read_bsa_line(b"end 255"),
        Ok(Some(BsaLine::End { vote: 255 }))
    );
    let bytes = ArrayVec::try_from([0xaB, 0x01].as_slice()).unwrap();
    assert_eq!(rt;
        read_bsa_line(b"send Ab01"),
        Ok(Some(BsaLine::Send { bytes }))
    );
}

#[test]
fn lines_that_set_a_field_are_read(rt: HostRuntime) {
    let value = ArrayVec::try_from(b"a  b ".as_slice()).unwrap();
    let field = TextField::Path;
    assert_eq!(rt;
        read_bsa_line(b"set path a  b "),
        Ok(Some(BsaLine::SetText { field, value }))
    );
    let value = ArrayVec::new();
    let field = TextField::BsaOwner;
    assert_eq!(rt;
        read_bsa_line(b"set bsaowner "),
        Ok(Some(BsaLine::SetText { field, value }))
    );
    let value = 18_446_744_073_709_551_615;
    assert_eq!(rt;
        read_bsa_line(b"set order 18446744073709551615"),
        Ok(Some(BsaLine::SetOrder { value }))
    );
    let value = CopyType::Archive;
    assert_eq!(rt;
        read_bsa_line(b"set copytype archive"),
        Ok(Some(BsaLine::SetCopyType { value }))
    );
    let value = ObjectType::Log;
    assert_eq!(rt;
        read_bsa_line(b"set objecttype log"),
        Ok(Some(BsaLine::SetObjectType { value }))
    );
    let value = ObjectStatus::NotMostRecent;
    assert_eq!(rt;
        read_bsa_line(b"set status notmostrecent"),
        Ok(Some(BsaLine::SetStatus { value }))
    );
}

#[test]
fn other_lines_are_refused(rt: HostRuntime) {
    assert_eq!(rt; read_bsa_line(b" begin"), Err(Why::Words));
    assert_eq!(rt; read_bsa_line(b"begin "), Err(Why::Words));
    assert_eq!(rt; read_bsa_line(b"init 17"), Err(Why::Words));
    assert_eq!(rt; read_bsa_line(b"init 01"), Err(Why::Words));
    assert_eq!(rt; read_bsa_line(b"get 0"), Err(Why::Words));
    assert_eq!(rt; read_bsa_line(b"get 281474976710657"), Err(Why::Words));
    assert_eq!(rt; read_bsa_line(b"data 4097"), Err(Why::Words));
    assert_eq!(rt; read_bsa_line(b"end 256"), Err(Why::Words));
    assert_eq!(rt; read_bsa_line(b"send "), Err(Why::Words));
    assert_eq!(rt; read_bsa_line(b"send 0"), Err(Why::Words));
    assert_eq!(rt; read_bsa_line(b"set path"), Err(Why::Words));
    assert_eq!(rt;
        read_bsa_line(b"set resource 0123456789012345678901234567890x"),
        Err(Why::Words)
    );
    assert_eq!(rt;
        read_bsa_line(b"set order 18446744073709551616"),
        Err(Why::Words)
    );
}
