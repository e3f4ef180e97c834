//! Each picker over a table of offers.

use crate::{BreadthFirst, DepthFirst, Listed, Offer, Picker, SmallestFirst};
use std::test::Fail;

const LIVE: [Offer; 5] = [
    Offer {
        step: 3,
        least: 0,
        members: 2,
    },
    Offer {
        step: 1,
        least: 2,
        members: 4,
    },
    Offer {
        step: 5,
        least: 3,
        members: 1,
    },
    Offer {
        step: 5,
        least: 7,
        members: 1,
    },
    Offer {
        step: 1,
        least: 9,
        members: 3,
    },
];

#[test]
fn pick_by_order(rt: HostRuntime) -> Result<(), Fail> {
    let live = LIVE;
    assert_eq!(rt; DepthFirst::new().pick(&live), 2);
    assert_eq!(rt; BreadthFirst::new().pick(&live), 1);
    assert_eq!(rt; SmallestFirst::new().pick(&live), 2);
    assert_eq!(rt; DepthFirst::new().name(), "depth");
    assert_eq!(rt; BreadthFirst::new().name(), "breadth");
    assert_eq!(rt; SmallestFirst::new().name(), "smallest");
    Ok(())
}

#[test]
fn pick_by_list(rt: HostRuntime) -> Result<(), Fail> {
    let live = LIVE;
    let mut listed = Listed::new([4, 7, 10].to_vec(rt.alloc())?);
    assert_eq!(rt; listed.name(), "listed");
    assert_eq!(rt; listed.pick(&live), 4);
    assert_eq!(rt; listed.pick(&live), 2);
    assert_eq!(rt; listed.pick(&live[..3]), 1);
    assert_eq!(rt; listed.pick(&live), 0);
    assert_eq!(rt; listed.pick(&live), 0);
    Ok(())
}
