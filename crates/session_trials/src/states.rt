//! The table of states.
use crate::shell;
use std::alloc::Global;
use std::test::Fail;
use trial_site::{Plan, formatted};

// An object is there, and its descriptor is set.
const MADE: &str = "set space db
set path /a
set copytype backup
set objecttype database
init 0
begin
create
send 61
enddata
end 1
terminate
";

const MADE_TEXT: &str = "Success
Success
Success
Success
Success size 1 digest ca978112ca1bbdcafac231b39a23dc4da786eff8147c4e72b9807785afee48bb
Success copy 1
Success
";

// The lines that lead from no session to a state, what they print, and the calls without an entry there.
static ROWS: [(&str, &str, &str); 6] = [
    (
        "",
        "",
        "begin\ncreate\nsend 61\nenddata\nquery\nnext\nget 1\ndata 1\ndelete 1\nend 1\nterminate\n",
    ),
    (
        "init 0\n",
        "Success\n",
        "init 0\ncreate\nsend 61\nenddata\nquery\nnext\nget 1\ndata 1\ndelete 1\nend 1\n",
    ),
    (
        "init 0\nbegin\n",
        "Success\nSuccess\n",
        "init 0\nbegin\nsend 61\nenddata\nnext\ndata 1\n",
    ),
    (
        "init 0\nbegin\ncreate\n",
        "Success\nSuccess\nSuccess\n",
        "init 0\nbegin\ncreate\nquery\nnext\nget 1\ndata 1\ndelete 1\nend 1\n",
    ),
    (
        "init 0\nbegin\nquery\n",
        "Success\nSuccess\nSuccess copy 1 backup database mostrecent size 1\n space db\n path /a\n",
        "init 0\nbegin\ncreate\nsend 61\nquery\nget 1\ndata 1\ndelete 1\nend 1\n",
    ),
    (
        "init 0\nbegin\nget 1\n",
        "Success\nSuccess\nSuccess size 1\n",
        "init 0\nbegin\ncreate\nsend 61\nquery\nnext\nget 1\ndelete 1\nend 1\n",
    ),
];

// A script behind the object, and its text.
fn push_all(alloc: Global, parts: &[&str]) -> Result<Vec<u8>, Fail> {
    let mut script = Vec::new(alloc);
    for part in parts {
        script.extend_from_slice(part.as_bytes())?;
    }
    Ok(script)
}

#[test]
fn a_call_without_an_entry_is_refused_and_changes_nothing(rt: HostRuntime) -> Result<(), Fail> {
    let alloc = rt.alloc();
    let site = formatted(&rt, alloc, "-init -k 2 A:1")?;
    for (way, told, calls) in ROWS {
        let script = push_all(alloc, &[MADE, way, calls])?;
        let mut want = push_all(alloc, &[MADE_TEXT, told])?;
        for _ in calls.split('\n').skip(1) {
            want.extend_from_slice(b"InvalidCallSequence\n")?;
        }
        want.extend_from_slice(b"ok\n")?;
        let ended = shell(alloc, &site, &Plan::NONE, &script)?;
        assert_eq!(rt; str::from_utf8(&ended.text)?, str::from_utf8(&want)?);
    }
    Ok(())
}

// The rows of the table, each by what its call leads to.
const WALK: &str = "init 0
terminate
init 0
begin
terminate
init 0
begin
create
terminate
init 0
begin
query
terminate
init 0
begin
get 1
terminate
init 0
begin
create
send 62
send 62
enddata
query
next
query
enddata
get 1
data 4
data 4
enddata
delete 1
delete 1
end 1
begin
query
next
end 2
terminate
";

const WALKED: &str = "Success
Success
Success
Success
Success
Success
Success
Success
Success
Success
Success
Success copy 1 backup database mostrecent size 1
 space db
 path /a
Success
Success
Success
Success size 1
Success
Success
Success
Success
Success
Success
Success size 2 digest 3b64db95cb55c763391c707108489ae18b4112d783300de38e033b4c98c3deaf
Success copy 1 backup database mostrecent size 1
 space db
 path /a
NoMoreData
Success copy 1 backup database mostrecent size 1
 space db
 path /a
Success
Success size 1
Success 61
NoMoreData
Success
Success
ObjectNotFound
Success copy 2
Success
Success copy 2 backup database mostrecent size 2
 space db
 path /a
NoMoreData
Success
Success
ok
";

#[test]
fn each_row_leads_to_its_state(rt: HostRuntime) -> Result<(), Fail> {
    let alloc = rt.alloc();
    let site = formatted(&rt, alloc, "-init -k 2 A:1")?;
    let script = push_all(alloc, &[MADE, WALK])?;
    let want = push_all(alloc, &[MADE_TEXT, WALKED])?;
    let ended = shell(alloc, &site, &Plan::NONE, &script)?;
    assert_eq!(rt; str::from_utf8(&ended.text)?, str::from_utf8(&want)?);
    Ok(())
}
