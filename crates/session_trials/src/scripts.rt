//! Scripts with their transcripts, literally.
use crate::shell;
use std::alloc::Global;
use std::test::Fail;
use trial_site::{Bytes, Plan, formatted};

const FIRST: &str = "init 0
send 41
begin
set space db
set path /a
set copytype backup
set objecttype database
create
send 616263
enddata
set path /*
query
end 2
begin
set path /a
create
send 616263
enddata
end 1
begin
set path /?
query
next
get 1
data 2
data 2
data 2
enddata
delete 2
end 7
terminate
";

const FIRST_TEXT: &str = "Success
InvalidCallSequence
Success
Success
Success
Success size 3 digest ba7816bf8f01cfea414140de5dae2223b00361a396177a9cb410ff61f20015ad
NoMatch
Success
Success
Success
Success
Success size 3 digest ba7816bf8f01cfea414140de5dae2223b00361a396177a9cb410ff61f20015ad
Success copy 1
Success
Success copy 1 backup database mostrecent size 3
 space db
 path /a
NoMoreData
Success size 3
Success 6162
Success 63
NoMoreData
Success
ObjectNotFound
InvalidVote
Success
ok
";

// The SHA-256 of 8,192 zero bytes, by another program.
const SECOND_TEXT: &str = "Success
Success
InvalidObjectDescriptor
Success
Success
Success
NoResources
Success size 8192 digest 9f1dcbc35c350d6027f98be0f5c8b43b42ca52b7604459c0c42be3aa88913d47
Success copy 2
Success
ok
";

fn push_times(script: &mut Vec<u8>, text: &[u8], count: usize) -> Result<(), Fail> {
    for _ in 0..count {
        script.extend_from_slice(text)?;
    }
    Ok(())
}

fn second(alloc: Global) -> Result<Vec<u8>, Fail> {
    let mut script = Vec::new(alloc);
    script.extend_from_slice(b"init 1\nbegin\nset copytype backup\nset objecttype database\n")?;
    script.extend_from_slice(b"set space db\nset path ")?;
    push_times(&mut script, b"p", 1_024)?;
    script.extend_from_slice(b"\ncreate\nset path ")?;
    push_times(&mut script, b"p", 1_023)?;
    script.extend_from_slice(b"\ncreate\nsend ")?;
    push_times(&mut script, b"00", 4_096)?;
    script.extend_from_slice(b"\nsend ")?;
    push_times(&mut script, b"00", 4_096)?;
    script.extend_from_slice(b"\nsend 00\nenddata\nend 1\nterminate\n")?;
    Ok(script)
}

#[test]
fn both_scripts_have_their_transcripts(rt: HostRuntime) -> Result<(), Fail> {
    let alloc = rt.alloc();
    let site = formatted(&rt, alloc, "-init -k 2 A:1")?;
    let first = shell(alloc, &site, &Plan::NONE, FIRST.as_bytes())?;
    assert_eq!(rt; str::from_utf8(&first.text)?, FIRST_TEXT);
    assert_eq!(rt; first.status.as_str(), "Ok");
    let second = shell(alloc, &first.bytes, &Plan::NONE, &second(alloc)?)?;
    assert_eq!(rt; str::from_utf8(&second.text)?, SECOND_TEXT);
    assert_eq!(rt; second.status.as_str(), "Ok");
    Ok(())
}

#[test]
fn a_store_that_isnt_formatted_is_refused(rt: HostRuntime) -> Result<(), Fail> {
    let alloc = rt.alloc();
    let ended = shell(alloc, &Bytes::blank(alloc), &Plan::NONE, FIRST.as_bytes())?;
    assert!(rt; ended.is("not formatted\n", "NotFormatted"));
    Ok(())
}

#[test]
fn a_line_that_isnt_in_the_table_ends_the_script(rt: HostRuntime) -> Result<(), Fail> {
    let alloc = rt.alloc();
    let site = formatted(&rt, alloc, "-init -k 2 A:1")?;
    let ended = shell(alloc, &site, &Plan::NONE, b"init 0\n\nquit\nbegin\n")?;
    assert!(rt; ended.tells("Success\nscript fault at line 3: words\n"));
    Ok(())
}
