//! Runs of a plant in which an allocation fails: the lines before are answered, and the next run is whole.

use super::steps::{Step, expect_steps};
use sr_plant_script::Topology;

// With the Nth allocation failing, for any N.
const IN_A_RING: &[Step] = &[Step::TakenUp(
    Topology::Ring,
    3,
    b"send 0 1 01\nrepeat 0\nsend 2 9 01\nflow\ntick 1 5\ncut 1\nsend 0 all 01\n",
    &[
        b"",
        b"",
        b"refused 3 NoSuchNode\n",
        b"up 1 02000000000102000000000088b501000000000000000000000000000000000000000000000000000000000000000000000000000000000000000000\nflow 4\n",
        b"",
        b"",
        b"",
        b"flight 3\n",
    ],
)];

#[test]
fn allocation_is_refused_in_a_ring(rt: HostRuntime) {
    expect_steps(&rt, IN_A_RING);
}

// With the Nth allocation failing, for any N.
const IN_LANS: &[Step] = &[Step::TakenUp(
    Topology::TwinLan,
    2,
    b"send 0 1 01\ncarry 1\ncarry 0\ntick 0 0\n",
    &[
        b"",
        b"up 1 02000000000102000000000088b501000000000000000000000000000000000000000000000000000000000000000000000000000000000000000000\n",
        b"",
        b"",
        b"flight 2\n",
    ],
)];

#[test]
fn allocation_is_refused_in_lans(rt: HostRuntime) {
    expect_steps(&rt, IN_LANS);
}
