//! Slots that wait, leave and wait again.
use crate::checks::assert_same;
use pg_ids::SlotNo;
use slot_queues::SlotQueues;
use std::test::Fail;

#[test]
fn first_in_first_out(rt: HostRuntime) -> Result<(), Fail> {
    let mut queues = SlotQueues::new(rt.alloc(), 2, 4)?;
    assert_same(&rt, queues.first(1), None);
    queues.push(0, SlotNo(3));
    queues.push(1, SlotNo(2));
    queues.push(0, SlotNo(1));
    assert_same(&rt, queues.first(0), Some(SlotNo(3)));
    assert_same(&rt, queues.first(1), Some(SlotNo(2)));
    queues.remove(SlotNo(3));
    assert_same(&rt, queues.first(0), Some(SlotNo(1)));
    queues.clear();
    assert_same(&rt, queues.first(0), None);
    Ok(())
}
