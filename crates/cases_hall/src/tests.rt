//! Calls by turns: in one thread, and in many.

use crate::counter::{Answer, Counter};
use crate::crowd;
use crate::looking::look_and_call;
use osgi_hall::{Closed, Hall, Machine, Open};
use std::alloc::AllocError;
use std::process::Abort;
use std::sync::atomic::{AtomicU64, Ordering};
use std::test::Fail;
use std::thread;
use std::thread::join;
use std::time::{Clock, Duration};

/// Turns of a millisecond within which a crowd has to end.
const TURNS: u32 = 20_000;

#[test]
fn two_callers_share_a_total_and_close_once_joined(rt: HostRuntime) -> Result<(), Fail> {
    let (hall, mut first) = Hall::new(rt.alloc(), Counter::new(rt.alloc(), 10))?;
    let mut second = hall.split(&mut first).expect(&rt, "memory for a pass");
    assert_eq!(rt; (first.caller(), second.caller(), first.made()), (0, 1, 2));
    assert_eq!(rt;
        hall.call(&rt, &mut first, 0, 2, None),
        Ok(Answer::Total(2))
    );
    assert_eq!(rt;
        hall.call(&rt, &mut second, 0, 3, None),
        Ok(Answer::Total(5))
    );
    let Err(
        Open {
            hall,
            mut pass,
            out,
        },
    ) = hall.close(first)
    else {
        panic!(rt; "closed with a pass out");
    };
    assert_eq!(rt; (out, pass.out()), (1, 1));
    hall.join(&mut pass, second);
    let Ok(Closed { machine }) = hall.close(pass) else {
        panic!(rt; "not closed with all joined");
    };
    assert_eq!(rt; machine.length(), 2);
    Ok(())
}

#[test]
fn a_call_that_is_not_recorded_loses_nothing(rt: HostRuntime) -> Result<(), Fail> {
    let (hall, mut pass) = Hall::new(rt.alloc(), Counter::new(rt.alloc(), 1))?;
    assert_eq!(rt;
        hall.call(&rt, &mut pass, 0, 0, None),
        Err(AllocError),
        "adding 0 finds no memory"
    );
    assert_eq!(rt; hall.call(&rt, &mut pass, 1, 7, None), Ok(Answer::Total(7)));
    assert_eq!(rt; hall.call(&rt, &mut pass, 2, 8, None), Ok(Answer::Full));
    let Ok(Closed { machine }) = hall.close(pass) else {
        panic!(rt; "not closed with no pass out");
    };
    assert_eq!(rt; machine.length(), 1);
    Ok(())
}

#[test]
fn a_view_counts_the_calls_of_all_and_a_hint_reaches_the_machine(
    rt: HostRuntime,
) -> Result<(), Fail> {
    let (hall, mut first) = Hall::new(rt.alloc(), Counter::new(rt.alloc(), 2))?;
    let mut second = hall.split(&mut first).expect(&rt, "memory for a pass");
    assert_eq!(rt;
        look_and_call(&rt, &hall, &mut first, 0, 7),
        Ok((0, Answer::Total(7)))
    );
    assert_eq!(rt;
        look_and_call(&rt, &hall, &mut second, 0, 1),
        Ok((1, Answer::Total(8)))
    );
    assert_eq!(rt; hall.view(&rt, &mut first, ()), Ok(2));
    assert_eq!(rt;
        hall.call(&rt, &mut first, 1, 0, None),
        Err(AllocError),
        "adding 0 finds no memory"
    );
    assert_eq!(rt;
        look_and_call(&rt, &hall, &mut first, 2, 0),
        Ok((2, Answer::Full)),
        "with the hint that the counter is full it is not tried"
    );
    Ok(())
}

/// Waits until the word is 1, and fails where that takes too many turns.
fn wait_for<R: Clock + Abort>(rt: &R, word: &AtomicU64) {
    for _ in 0..TURNS {
        if word.load(Ordering::SeqCst) == 1 {
            return;
        }
        thread::sleep(rt, Duration::from_millis(1));
    }
    panic!(rt; "a caller waits for ever")
}

#[test]
fn each_waiter_is_woken(rt: HostRuntime) -> Result<(), Fail> {
    let ended = AtomicU64::new(0);
    let (crowd, _) = join(
        &rt,
        || {
            let crowd = crowd::run(&rt, rt.alloc(), 8, 500);
            ended.store(1, Ordering::SeqCst);
            crowd
        },
        || wait_for(&rt, &ended),
    );
    let crowd = crowd?;
    assert_eq!(rt; crowd.counter.length(), 4000);
    assert!(rt; crowd.agrees_with_history());
    Ok(())
}
