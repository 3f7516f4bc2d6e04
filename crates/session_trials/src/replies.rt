use crate::answers::{
    answers, refuses_bundles, refuses_query_lines, refuses_too_much, station_bundle,
};
use catalog::list::reply_to;
use std::test::Fail;
use trials::worked_bundle;

#[test]
fn the_worked_bundle_is_listed(rt: HostRuntime) -> Result<(), Fail> {
    let text =
        b"tapes 5 events 12 threshold 2 length 3\n4 10\n2 10 20\n2 10 30\n3 20\n2 20 10\n3 30\nend 6\n";
    answers(
        &rt,
        rt.alloc(),
        &reply_to,
        b"2 3 .+\n",
        worked_bundle(),
        text,
        false,
    )
}

#[test]
fn stations_are_listed(rt: HostRuntime) -> Result<(), Fail> {
    let text = b"tapes 1 events 2 threshold 1 length 16\n1 12:d\n1 12:d 12:t\n1 12:t\nend 3\n";
    answers(
        &rt,
        rt.alloc(),
        &reply_to,
        b"001 16 \n",
        station_bundle(),
        text,
        false,
    )
}

#[test]
fn query_lines_are_refused(rt: HostRuntime) -> Result<(), Fail> {
    refuses_query_lines(&rt, rt.alloc(), &reply_to)
}

#[test]
fn openings_are_refused(rt: HostRuntime) -> Result<(), Fail> {
    let heap = rt.alloc();
    let k = worked_bundle();
    answers(
        &rt,
        heap,
        &reply_to,
        b"000 3 .\n",
        k,
        b"refused 3 query 0 -\n",
        true,
    )?;
    answers(
        &rt,
        heap,
        &reply_to,
        b"513 17 .\n",
        k,
        b"refused 3 query 0 -\n",
        true,
    )?;
    answers(
        &rt,
        heap,
        &reply_to,
        b"512 17 .\n",
        k,
        b"refused 4 query 0 -\n",
        true,
    )?;
    answers(
        &rt,
        heap,
        &reply_to,
        b"512 16 .\n",
        k,
        b"tapes 5 events 12 threshold 512 length 16\nend 0\n",
        false,
    )
}

#[test]
fn bundles_are_refused(rt: HostRuntime) -> Result<(), Fail> {
    refuses_bundles(&rt, rt.alloc(), &reply_to)
}

#[test]
fn too_much_input(rt: HostRuntime) -> Result<(), Fail> {
    refuses_too_much(&rt, rt.alloc(), &reply_to)
}
