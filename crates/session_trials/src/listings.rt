use crate::answers::{
    answers, refuses_bundles, refuses_query_lines, refuses_too_much, station_bundle,
};
use listing::list::reply_to;
use std::test::Fail;
use trials::worked_bundle;

#[test]
fn the_worked_bundle_is_listed(rt: HostRuntime) -> Result<(), Fail> {
    let text = b"tapes 5 events 12 threshold 2 length 3\n4 10\n3 20\n3 30\n1 40\n";
    answers(
        &rt,
        rt.alloc(),
        &reply_to,
        b"2 3 .+\n",
        worked_bundle(),
        text,
        false,
    )
}

#[test]
fn stations_are_listed(rt: HostRuntime) -> Result<(), Fail> {
    let text = b"tapes 1 events 2 threshold 1 length 16\n1 12:d\n1 12:t\n";
    answers(
        &rt,
        rt.alloc(),
        &reply_to,
        b"001 16 \n",
        station_bundle(),
        text,
        false,
    )
}

#[test]
fn query_lines_are_refused(rt: HostRuntime) -> Result<(), Fail> {
    refuses_query_lines(&rt, rt.alloc(), &reply_to)
}

#[test]
fn bundles_are_refused(rt: HostRuntime) -> Result<(), Fail> {
    refuses_bundles(&rt, rt.alloc(), &reply_to)
}

#[test]
fn too_much_input(rt: HostRuntime) -> Result<(), Fail> {
    refuses_too_much(&rt, rt.alloc(), &reply_to)
}
