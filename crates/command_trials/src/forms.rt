//! Forms of words, and formatting.
use site_model::DiskName;
use std::test::Fail;
use trial_site::{
    Bytes, INIT, NOTHING, Plan, Step, Trouble, WRITTEN, command, formatted, run_steps,
};

// Words, and the number of the first that is refused.
static REFUSED: [(&str, u32); 10] = [
    ("", 1),
    ("-X", 1),
    ("-T x", 2),
    ("-t -T", 1),
    ("-r -t", 1),
    ("-init", 2),
    ("-init A:0", 2),
    ("-D", 2),
    ("-j 2 -D A x", 5),
    ("-D A 4294967296", 3),
];

#[test]
fn refused_words_touch_no_disk(rt: HostRuntime) -> Result<(), Fail> {
    let alloc = rt.alloc();
    let stopped = [
        (DiskName::Cat, Trouble::Stops(0, 0)),
        (DiskName::Log, Trouble::Stops(0, 0)),
    ];
    let plan = Plan {
        troubles: &stopped,
        crash: None,
    };
    let blank = Bytes::blank(alloc);
    for (words, at) in REFUSED {
        let ended = command(&rt, alloc, words, &blank, &plan, b"begin 1\n")?;
        let text = format!(in alloc; "usage at word {at}\n")?;
        let status = format!(in alloc; "Usage({at})")?;
        assert!(rt; ended.is(text.as_str(), status.as_str()), "{words}");
        assert!(rt; ended.is_untouched, "{words}");
    }
    Ok(())
}

/// The catalogue's page of a site, with blocks a volume in two bytes, and this list of spaces.
fn catalogue_page(blocks: [u8; 2], spaces: &[u8; 48], count: u8) -> [u8; 4096] {
    let mut page = [0; 4096];
    page[..16].copy_from_slice(b"\x01OBS\x01\x01\0\0\0\0\0\0\x01\x02\x03\x04");
    page[17] = count;
    page[25] = blocks[0];
    page[27] = blocks[1];
    page[32..80].copy_from_slice(spaces);
    page
}

const AGAIN: Step<'static> = Step {
    words: "-init A:4",
    script: "",
    text: "already formatted\n",
    status: "AlreadyFormatted",
};

#[test]
fn a_site_is_formatted_once(rt: HostRuntime) -> Result<(), Fail> {
    let alloc = rt.alloc();
    let left = run_steps(&rt, alloc, &[INIT, WRITTEN, AGAIN, NOTHING])?.ok_or("another end")?;
    let mut spaces = [0; 48];
    spaces[0] = b'A';
    spaces[23] = 4;
    let page = catalogue_page([16, 0], &spaces, 1);
    assert_eq!(rt; left.of(DiskName::Cat).get(..4096), Some(page.as_slice()));
    Ok(())
}

#[test]
fn a_site_of_two_spaces_is_formatted(rt: HostRuntime) -> Result<(), Fail> {
    let alloc = rt.alloc();
    let larger = Step {
        words: "-j 3 -init -k 2 A:4 B:300",
        script: "",
        text: "space A pages 4\nspace B pages 300\nok\n",
        status: "Ok",
    };
    let left = run_steps(&rt, alloc, &[larger, WRITTEN])?.ok_or("another end")?;
    let mut spaces = [0; 48];
    spaces[0] = b'A';
    spaces[23] = 4;
    spaces[24] = b'B';
    spaces[46] = 1;
    spaces[47] = 44;
    let page = catalogue_page([0, 2], &spaces, 2);
    assert_eq!(rt; left.of(DiskName::Cat).get(..4096), Some(page.as_slice()));
    Ok(())
}

/// The catalogue's header alone says that there is a site.
#[test]
fn a_site_that_lost_its_other_disks_is_not_formatted_anew(rt: HostRuntime) -> Result<(), Fail> {
    let alloc = rt.alloc();
    let site = formatted(&rt, alloc, INIT.words)?;
    for name in [
        DiskName::Log,
        DiskName::Spare,
        DiskName::Volume(3),
        DiskName::Chunk(0),
    ] {
        let lost = site.with_disk(alloc, name, b"")?;
        let ended = command(&rt, alloc, "-init B:2", &lost, &Plan::NONE, b"")?;
        assert!(rt; ended.is(AGAIN.text, AGAIN.status), "{name}");
        assert!(rt; ended.bytes == lost, "{name}");
    }
    Ok(())
}
