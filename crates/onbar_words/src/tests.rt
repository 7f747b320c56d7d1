//! What no clause says: that calls succeed, and worked words.
use crate::{Form, Order, WordFault, read_words};
use bsa_descriptor::Text;
use site_headers::SpaceHead;
use std::alloc::Global;
use std::test::Fail;

/// Reads the words of a line, parted by one space.
fn read_line(alloc: Global, line: &str) -> Result<Result<Order, WordFault>, Fail> {
    let mut words = Vec::new(alloc);
    for word in line.split(' ') {
        words.push(String::from_str(alloc, word)?)?;
    }
    if words.len() > 100 {
        return Err("more than 100 words".into());
    }
    Ok(read_words(alloc, words.as_slice()))
}

// A line of words, and the number of the first word refused.
static REFUSED_WORDS: [(&str, u32); 40] = [
    ("", 1),
    ("-t", 1),
    (" -T", 1),
    ("-r -t", 1),
    ("A:4 -init", 1),
    ("-T x", 2),
    ("-T -T", 2),
    ("-T  x", 2),
    ("-j", 2),
    ("-j 0", 2),
    ("-j 17", 2),
    ("-j 01 -T", 2),
    ("-j -T", 2),
    ("-j 2", 3),
    ("-j 2 -j 3 -T", 3),
    ("-j 2 -T x", 4),
    ("-init", 2),
    ("-init A:0", 2),
    ("-init A:65537", 2),
    ("-init A", 2),
    ("-init A:", 2),
    ("-init :4", 2),
    ("-init 1A:4", 2),
    ("-init A:04", 2),
    ("-init A:4:4", 2),
    ("-init a_name_of_19_chars_:4", 2),
    ("-init A:4 A:5", 3),
    ("-init A:4 B:4 A:5 C:0", 4),
    (
        "-init A:1 B:1 C:1 D:1 E:1 F:1 G:1 H:1 I:1 J:1 K:1 L:1 M:1 N:1 O:1 P:1 Q:1 R:1",
        18,
    ),
    ("-init -k", 3),
    ("-init -k 0 A:4", 3),
    ("-init -k 1048577 A:4", 3),
    ("-init -k 5", 4),
    ("-init A:4 -k 5", 3),
    ("-j 2 -init -k 5 A:4 A:4", 7),
    ("-D", 2),
    ("-D 9", 2),
    ("-D A x", 3),
    ("-D A 4294967296", 3),
    ("-D A 0 0", 4),
];

#[test]
fn the_first_refused_word_is_answered(rt: HostRuntime) -> Result<(), Fail> {
    assert_eq!(rt; read_words(rt.alloc(), &[]), Err(WordFault::At(1)));
    for (line, place) in REFUSED_WORDS {
        assert_eq!(rt;
            read_line(rt.alloc(), line)?,
            Err(WordFault::At(place)),
            "{line}"
        );
    }
    Ok(())
}

/// `-init` with these names and numbers of pages.
fn init_of(alloc: Global, blocks: u32, spaces: &[(&str, u32)]) -> Result<Form, Fail> {
    let mut heads = Vec::new(alloc);
    for &(name, pages) in spaces {
        let name = Text::from_bytes(name.as_bytes()).ok_or("name")?;
        heads.push(SpaceHead { name, pages })?;
    }
    Ok(Form::Init {
        blocks,
        spaces: heads,
    })
}

#[test]
fn words_say_what_to_format(rt: HostRuntime) -> Result<(), Fail> {
    for (line, workers, blocks, spaces) in [
        (
            "-init A:4 a:5",
            1,
            1_048_576,
            [("A", 4), ("a", 5)].as_slice(),
        ),
        ("-init -k 5 A:4", 1, 5, &[("A", 4)]),
        (
            "-j 16 -init -k 1048576 a_name_of_18_chars:65536 B:1",
            16,
            1_048_576,
            &[("a_name_of_18_chars", 65_536), ("B", 1)],
        ),
    ] {
        let form = init_of(rt.alloc(), blocks, spaces)?;
        assert_eq!(rt;
            read_line(rt.alloc(), line)?,
            Ok(Order { workers, form }),
            "{line}"
        );
    }
    let most = "-init A:1 B:1 C:1 D:1 E:1 F:1 G:1 H:1 I:1 J:1 K:1 L:1 M:1 N:1 O:1 P:1";
    assert!(rt; read_line(rt.alloc(), most)?.is_ok());
    Ok(())
}

#[test]
fn words_say_what_to_run_and_to_show(rt: HostRuntime) -> Result<(), Fail> {
    for (line, workers) in [("-T", 1), ("-j 1 -T", 1), ("-j 16 -T", 16)] {
        let form = Form::Transactions;
        assert_eq!(rt;
            read_line(rt.alloc(), line)?,
            Ok(Order { workers, form }),
            "{line}"
        );
    }
    for (line, workers, page) in [
        ("-D A_1", 1, None),
        ("-D A_1 0", 1, Some(0)),
        ("-j 2 -D A_1 4294967295", 2, Some(4_294_967_295)),
    ] {
        let space = Text::from_bytes(b"A_1").ok_or("name")?;
        let form = Form::Show { space, page };
        assert_eq!(rt;
            read_line(rt.alloc(), line)?,
            Ok(Order { workers, form }),
            "{line}"
        );
    }
    Ok(())
}
