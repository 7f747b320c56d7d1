//! Two Resets, the second back across the first.
use crate::{ResetPoint, ResetPoints};
use std::test::Fail;

#[test]
fn what_a_reset_leaves_is_live(rt: HostRuntime) -> Result<(), Fail> {
    let mut reset_points = ResetPoints::new(rt.alloc());
    assert!(rt; reset_points.is_empty());
    reset_points
        .push(ResetPoint { at: 5, target: 2 })
        .map_err(|_| "memory")?;
    reset_points
        .push(ResetPoint { at: 8, target: 6 })
        .map_err(|_| "memory")?;
    assert!(rt; !reset_points.is_empty());
    for (n, live) in [
        (
            4,
            [true, true, true, true, false, false, false, false, false],
        ),
        (
            6,
            [true, true, false, false, true, true, false, false, false],
        ),
        (9, [true, true, false, false, true, true, false, true, true]),
    ] {
        for (i, is) in live.into_iter().enumerate() {
            assert_eq!(rt; reset_points.is_live(n, i as u64 + 1), is, "{i} at {n}");
        }
    }
    Ok(())
}
