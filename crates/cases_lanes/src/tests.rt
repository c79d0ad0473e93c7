//! Lanes of which the answers are known.

use crate::doubling::Doubling;
use crate::meeting::{Meeting, Met};
use osgi_lanes::run_lanes;
use std::test::Fail;

#[test]
fn what_three_lanes_give_comes_in_their_order(rt: HostRuntime) -> Result<(), Fail> {
    let lanes = vec![in rt.alloc(); 1, 2, 3]?;
    let Ok(done) = run_lanes(&rt, rt.alloc(), &Doubling, lanes) else {
        panic!(rt; "no memory");
    };
    assert_eq!(rt; done.as_slice(), [2, 4, 6].as_slice());
    Ok(())
}

#[test]
fn no_lanes_give_nothing(rt: HostRuntime) -> Result<(), Fail> {
    let Ok(done) = run_lanes(&rt, rt.alloc(), &Doubling, Vec::new(rt.alloc())) else {
        panic!(rt; "no memory");
    };
    assert!(rt; done.is_empty());
    Ok(())
}

#[test]
fn eight_lanes_run_at_the_same_time(rt: HostRuntime) -> Result<(), Fail> {
    let lanes = vec![in rt.alloc(); 1, 2, 3, 4, 5, 6, 7, 8]?;
    let Ok(done) = run_lanes(&rt, rt.alloc(), &Meeting::new(8), lanes) else {
        panic!(rt; "no memory");
    };
    assert_eq!(rt; done.len(), 8);
    for (place, met) in done.iter().enumerate() {
        assert_eq!(rt; met.lane as usize, place + 1);
        assert!(rt; met.all, "lane {} does not meet the others", met.lane);
    }
    Ok(())
}
