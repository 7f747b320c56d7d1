//! Patterns, queries and names.

use super::*;
use bsa_descriptor::{CopyType, Descriptor, ObjectStatus, ObjectType, Text};
use std::test::Fail;

#[test]
fn a_pattern_matches_the_whole_text(rt: HostRuntime) {
    for (pattern, text, want) in [
        (b"".as_slice(), b"".as_slice(), true),
        (b"".as_slice(), b"a".as_slice(), false),
        (b"*".as_slice(), b"".as_slice(), true),
        (b"?".as_slice(), b"".as_slice(), false),
        (b"/a*b".as_slice(), b"/ab".as_slice(), true),
        (b"/a?b".as_slice(), b"/ab".as_slice(), false),
        (b"/a?b".as_slice(), b"/acb".as_slice(), true),
        (b"**a".as_slice(), b"ba".as_slice(), true),
        (b"*ab".as_slice(), b"aab".as_slice(), true),
        (b"*ab*ab".as_slice(), b"abab".as_slice(), true),
        (b"*ab*ab".as_slice(), b"ab".as_slice(), false),
        (b"a*".as_slice(), b"ba".as_slice(), false),
        (b"a".as_slice(), b"ab".as_slice(), false),
        (b"ab".as_slice(), b"a".as_slice(), false),
        (b"\\*".as_slice(), b"*".as_slice(), false),
        (b"\\*".as_slice(), b"\\x".as_slice(), true),
        (b"A".as_slice(), b"a".as_slice(), false),
    ] {
        assert_eq!(rt; wild(pattern, text), want);
    }
}

#[test]
fn forty_stars_take_no_time(rt: HostRuntime) {
    let mut text = [b'a'; 1000];
    let mut pattern = [b'*'; 81];
    assert!(rt; wild(&pattern[..40], &text));
    for i in 0..40 {
        pattern[2 * i + 1] = b'a';
    }
    pattern[80] = b'b';
    assert!(rt; !wild(&pattern, &text));
    text[999] = b'b';
    assert!(rt; wild(&pattern, &text));
}

fn log_object() -> Option<Descriptor> {
    let mut object = Descriptor::empty();
    object.bsa_owner = Text::from_bytes(b"onbar")?;
    object.space = Text::from_bytes(b"site")?;
    object.path = Text::from_bytes(b"/log/7")?;
    object.copy = 3;
    object.copy_type = CopyType::Backup;
    object.object_type = ObjectType::Log;
    object.status = ObjectStatus::NotMostRecent;
    Some(object)
}

fn log_query() -> Option<Descriptor> {
    let mut query = Descriptor::empty();
    query.space = Text::from_bytes(b"*")?;
    query.path = Text::from_bytes(b"/log/?")?;
    Some(query)
}

#[test]
fn a_query_finds_what_it_asks_for(rt: HostRuntime) -> Result<(), Fail> {
    let object = log_object().ok_or("each text fits")?;
    let mut query = log_query().ok_or("each text fits")?;
    assert!(rt; matches(&query, &object));
    query.copy = 99;
    query.bsa_owner = Text::from_bytes(b"onbar").ok_or("it fits")?;
    query.copy_type = CopyType::Backup;
    query.object_type = ObjectType::Log;
    query.status = ObjectStatus::NotMostRecent;
    assert!(rt; matches(&query, &object));
    query.status = ObjectStatus::MostRecent;
    assert!(rt; !matches(&query, &object), "it is not the newest");
    query.status = ObjectStatus::Any;
    query.copy_type = CopyType::Archive;
    assert!(rt; !matches(&query, &object), "it is a backup");
    query.copy_type = CopyType::Any;
    query.bsa_owner = Text::from_bytes(b"onba?").ok_or("it fits")?;
    assert!(rt; !matches(&query, &object), "an owner is no pattern");
    query.bsa_owner = Text::from_bytes(b"").ok_or("it fits")?;
    query.path = Text::from_bytes(b"").ok_or("it fits")?;
    assert!(rt; !matches(&query, &object), "an empty pattern is no `*`");
    Ok(())
}

#[test]
fn a_name_is_owners_space_path_and_copy_type(rt: HostRuntime) -> Result<(), Fail> {
    let object = log_object().ok_or("each text fits")?;
    let mut later = object.clone()?;
    later.copy = 4;
    later.info = Text::from_bytes(b"again").ok_or("it fits")?;
    later.object_type = ObjectType::Database;
    assert!(rt; same_name(&object, &later));
    later.copy_type = CopyType::Archive;
    assert!(rt; !same_name(&object, &later));
    later.copy_type = CopyType::Backup;
    later.path = Text::from_bytes(b"/log/8").ok_or("it fits")?;
    assert!(rt; !same_name(&object, &later));
    Ok(())
}
