//! What the queues do, by example.

use queue::{Mark, Queue, Queues};

#[test]
fn items_go_round_the_end_of_the_cells(rt: HostRuntime) {
    let mut cells = [0u8; 2];
    let mut queue = Queue::new(&mut cells);
    assert_eq!(rt; queue.push_back(1), Ok(()));
    assert_eq!(rt; queue.push_back(2), Ok(()));
    assert_eq!(rt; queue.push_back(3), Err(3), "both cells are taken");
    assert_eq!(rt; queue.pop_front(), Some(1));
    assert_eq!(rt; queue.push_back(3), Ok(()));
    assert_eq!(rt; queue.pop_front(), Some(2));
    assert_eq!(rt; queue.pop_front(), Some(3));
}

#[test]
fn a_full_place_takes_nothing_from_the_others(rt: HostRuntime) {
    let mut cells = [0u8; 5];
    let mut marks = [Mark { head: 9, count: 9 }; 2];
    let mut queues = Queues::new(&mut cells, &mut marks);
    assert_eq!(rt; queues.room(1), 2);
    assert_eq!(rt; queues.push_back(0, 1), Ok(()));
    assert_eq!(rt; queues.push_back(0, 2), Ok(()));
    assert_eq!(rt; queues.push_back(0, 3), Err(3));
    assert_eq!(rt; queues.len(1), 0);
    assert_eq!(rt; queues.get(0, 1), Some(2));
    assert_eq!(rt; queues.push_back(2, 4), Err(4), "there is no such place");
}
