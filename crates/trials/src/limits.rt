// The constants of `buffer`, which no clause of that crate names.
use buffer::{LIMIT, STOP};

#[test]
fn the_limit_and_the_stop(rt: HostRuntime) {
    assert_eq!(rt; LIMIT, 2_147_483_647);
    assert_eq!(rt; STOP, 2_147_483_648);
}
