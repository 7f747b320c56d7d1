ghost use Rattle.block_chain.specs.Table.{IsListOf};

use crate::{BlockList, ChainFault, Chains, Run};
use std::alloc::{AllocError, Global};
use std::process::Abort;
use std::test::Fail;

// The lists of runs `(first, count)`.
fn lists_of(alloc: Global, lists: &[&[(u32, u32)]]) -> Result<Vec<Vec<Run>>, AllocError> {
    let mut made = Vec::new(alloc);
    for list in lists {
        let mut runs = Vec::new(alloc);
        for &(first, count) in *list {
            runs.push(Run { first, count })?;
        }
        made.push(runs)?;
    }
    Ok(made)
}

#[test]
fn the_first_block_that_stands_twice_or_is_out_of_range_is_named(
    rt: HostRuntime,
) -> Result<(), Fail> {
    let cases: [(&[&[(u32, u32)]], u32); 6] = [
        (&[&[(0, 2)], &[(1, 1)]], 1),
        (&[&[(2, 1), (0, 1)], &[(3, 1), (0, 3)]], 0),
        (&[&[(0, 1)], &[], &[(3, 2)], &[(0, 1)]], 4),
        (&[&[(2, u32::MAX)]], 4),
        (&[&[(u32::MAX, 2)]], u32::MAX),
        (&[&[(1, 1), (1, 1)]], 1),
    ];
    for (lists, block) in cases {
        let live = lists_of(rt.alloc(), lists)?;
        match Chains::new(rt.alloc(), 4, &live) {
            Ok(_) => assert!(rt; false, "no refusal at block {block}"),
            Err(fault) => assert_eq!(rt; fault, ChainFault::Overlap { block }),
        }
    }
    Ok(())
}

// Takes blocks to the end of a list, and compares them.
fn takes(rt: &impl Abort, chains: &mut Chains, list: &mut BlockList, blocks: &[u32])
    requires { IsListOf chains.old list.old }
    ensures { IsListOf chains.new list.new }
{
    for &block in blocks {
        assert_eq!(rt; chains.take_first(list), Some(block));
    }
}

#[test]
fn blocks_are_taken_in_the_order_in_which_they_came_back(rt: HostRuntime) -> Result<(), Fail> {
    let live = lists_of(rt.alloc(), &[&[(1, 1)], &[(4, 1)]])?;
    let mut chains = Chains::new(rt.alloc(), 6, &live)?;
    assert_eq!(rt; chains.free(), 4);
    assert_eq!(rt; live.len(), 2);
    let one = chains.list_of(&live[0]);
    chains.give_back(one);
    let mut list = chains.empty_list();
    takes(&rt, &mut chains, &mut list, &[0, 2, 3]);
    chains.give_back(list);
    let mut list = chains.empty_list();
    takes(&rt, &mut chains, &mut list, &[5, 1, 0, 2, 3]);
    assert_eq!(rt; chains.take_first(&mut list), None);
    assert_eq!(rt; chains.free(), 0);
    let runs = chains.runs(&list)?;
    assert_eq!(rt;
        runs.as_slice(),
        [
            Run { first: 5, count: 1 },
            Run { first: 1, count: 1 },
            Run { first: 0, count: 1 },
            Run { first: 2, count: 2 },
        ]
        .as_slice(),
    );
    Ok(())
}

// Takes all blocks of a table without live lists, twice over.
fn takes_and_gives_back(rt: &(impl Abort + AllocGlobal), blocks: u32) -> Result<(), Fail> {
    let live = Vec::new(rt.alloc());
    let mut chains = Chains::new(rt.alloc(), blocks, &live)?;
    for _ in 0..2 {
        let mut list = chains.empty_list();
        for block in 0..blocks {
            assert_eq!(rt; chains.take_first(&mut list), Some(block));
        }
        assert_eq!(rt; chains.take_first(&mut list), None);
        let runs = chains.runs(&list)?;
        let whole = Run {
            first: 0,
            count: blocks,
        };
        assert_eq!(rt; runs.as_slice(), [whole].as_slice());
        chains.give_back(list);
        assert_eq!(rt; chains.free(), blocks);
    }
    Ok(())
}

#[test]
fn a_large_table_takes_and_gives_back(rt: HostRuntime) -> Result<(), Fail> {
    takes_and_gives_back(&rt, 1_048_576)
}
