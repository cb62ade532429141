//! The order of five variables, some of which went to the front, worked by hand.

use decision_queue::DecisionQueue;
use std::test::Fail;

/// The order after 0 to 4 came in, and 3, 3, 0 and 4 went to the front one after the other.
const ORDER: [usize; 5] = [4, 0, 3, 1, 2];

fn to_front(queue: &mut DecisionQueue, vars: &[usize]) {
    for var in vars {
        if *var < queue.len() {
            queue.to_front(*var);
        }
    }
}

#[test]
fn variables_brought_to_the_front(rt: HostRuntime) -> Result<(), Fail> {
    let mut queue = DecisionQueue::new(rt.alloc());
    assert_eq!(rt; queue.front(), None);
    for _ in 0..5 {
        queue.add_var()?;
    }
    to_front(&mut queue, &[3, 3, 0, 4]);
    let mut at = queue.front();
    for expected in &ORDER {
        assert_eq!(rt; at, Some(*expected));
        assert!(rt; *expected < queue.len());
        at = queue.next(*expected);
    }
    assert_eq!(rt; at, None);
    Ok(())
}
