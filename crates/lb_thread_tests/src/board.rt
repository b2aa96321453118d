//! A lane reads the figure that it published itself.
use lb_base::Fig;
use lb_board::{Board, gather};
use std::test::Fail;

#[test]
fn a_lane_reads_its_own_work(rt: HostRuntime) -> Result<(), Fail> {
    let (board, mut writers, mut readers) = Board::new(rt.alloc(), 1, 1)?;
    let fig = Fig {
        n: 1,
        ticket: 2,
        nr: 3,
        load: 4,
        util: 5,
        runnable: 6,
        flags: 257,
    };
    writers[0].publish(&rt, &board, fig);
    readers[0].told(&rt, &board, &mut writers[0]);
    assert!(rt; readers[0].read(&rt, &board, 0) == fig);
    assert!(rt; writers[0].cpu() == 0);
    assert!(rt; gather(&rt, board, writers, readers) == 1);
    Ok(())
}
