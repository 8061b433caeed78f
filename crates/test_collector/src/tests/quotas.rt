use cache_refills::{floor_of, quota_of};

#[test]
fn work_is_shared_among_free_cells(rt: HostRuntime) {
    assert!(&rt; quota_of(64, 100, 20, 40, 160) == 32);
}

#[test]
fn a_quota_is_at_most_sixteen_a_cell(rt: HostRuntime) {
    assert!(&rt; quota_of(64, 1_000, 0, 0, 0) == 1_024);
}

#[test]
fn nothing_is_owed_where_no_work_is_left(rt: HostRuntime) {
    assert!(&rt; quota_of(64, 10, 0, 10, 50) == 0);
}

#[test]
fn objects_made_since_the_last_cycle_are_owed_by_the_floor_alone(rt: HostRuntime) {
    assert!(&rt; quota_of(64, 1_600, 0, 1_600, 64) == 0 && floor_of(64, 1_600, 64) == 100);
}

#[test]
fn a_floor_is_at_most_sixteen_a_cell(rt: HostRuntime) {
    assert!(&rt; floor_of(64, 16_777_216, 0) == 1_024);
}
