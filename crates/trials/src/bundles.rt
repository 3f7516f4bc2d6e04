use crate::worked_bundle;
use bundle::fault::BundleFault;
use bundle::reader::read_bundle;
use event::scanner::Scanner;
use event::span::Span;
use event::station::Station;
use std::test::Fail;

const BLANK: Scanner = Scanner { code: 7 };

#[test]
fn the_worked_bundle_reads(rt: HostRuntime) {
    let mut offsets = [77u32; 8];
    let mut events = [BLANK; 13];
    assert_eq!(rt;
        read_bundle(worked_bundle(), &mut offsets, &mut events),
        Ok((5, 12))
    );
    assert_eq!(rt; offsets, [0, 4, 7, 9, 9, 12, 77, 77]);
    assert_eq!(rt; events[0], Scanner { code: 10 });
    assert_eq!(rt; events[11], Scanner { code: 20 });
    assert_eq!(rt; events[12], BLANK);
}

#[test]
fn rows_that_are_too_short(rt: HostRuntime) {
    let mut offsets = [77u32; 5];
    let mut events = [BLANK; 12];
    assert_eq!(rt;
        read_bundle(worked_bundle(), &mut offsets, &mut events),
        Err(BundleFault::Room)
    );
    assert_eq!(rt; offsets, [77; 5]);
    assert_eq!(rt; events[0], BLANK);
    let mut longer = [77u32; 6];
    let mut fewer = [BLANK; 11];
    assert_eq!(rt;
        read_bundle(worked_bundle(), &mut longer, &mut fewer),
        Err(BundleFault::Room)
    );
}

// Reads the worked bundle with one byte changed.
fn read_with(place: usize, byte: u8) -> Result<(usize, usize), BundleFault> {
    let mut file = *worked_bundle();
    if place < 56 {
        file[place] = byte;
    }
    let mut offsets = [77u32; 8];
    let mut events = [BLANK; 13];
    read_bundle(&file, &mut offsets, &mut events)
}

#[test]
fn faults_in_order(rt: HostRuntime) {
    assert_eq!(rt; read_with(1, 2), Err(BundleFault::Kind));
    assert_eq!(rt; read_with(2, 1), Err(BundleFault::Short));
    assert_eq!(rt; read_with(2, 2), Err(BundleFault::Size));
    assert_eq!(rt; read_with(5, 1), Err(BundleFault::Size));
    assert_eq!(rt; read_with(7, 13), Err(BundleFault::Short));
    assert_eq!(rt; read_with(7, 11), Err(BundleFault::Over));
    let first = Span {
        start: 8,
        length: 4,
    };
    assert_eq!(rt;
        read_with(11, 1),
        Err(BundleFault::Offsets {
            index: 0,
            span: first,
        })
    );
    let third = Span {
        start: 16,
        length: 4,
    };
    assert_eq!(rt;
        read_with(15, 8),
        Err(BundleFault::Offsets {
            index: 2,
            span: third,
        })
    );
    let last = Span {
        start: 28,
        length: 4,
    };
    assert_eq!(rt;
        read_with(31, 11),
        Err(BundleFault::Offsets {
            index: 5,
            span: last,
        })
    );
    let second = Span {
        start: 34,
        length: 2,
    };
    assert_eq!(rt;
        read_with(34, 16),
        Err(BundleFault::Event {
            index: 1,
            span: second,
        })
    );
}

#[test]
fn short_and_over(rt: HostRuntime) -> Result<(), Fail> {
    let mut offsets = [77u32; 8];
    let mut events = [BLANK; 13];
    let file = worked_bundle();
    assert_eq!(rt;
        read_bundle(&file[0..55], &mut offsets, &mut events),
        Err(BundleFault::Short)
    );
    assert_eq!(rt;
        read_bundle(&file[0..7], &mut offsets, &mut events),
        Err(BundleFault::Short)
    );
    assert_eq!(rt; offsets, [77; 8]);
    let mut longer = file.to_vec(rt.alloc())?;
    longer.push(0)?;
    assert_eq!(rt;
        read_bundle(&longer, &mut offsets, &mut events),
        Err(BundleFault::Over)
    );
    Ok(())
}

#[test]
fn no_tapes_of_stations(rt: HostRuntime) {
    let file = b"\x00\x02\x00\x00\x00\x00\x00\x00\x00\x00\x00\x00";
    let mut offsets = [77u32; 1];
    let mut events: [Station; 0] = [];
    assert_eq!(rt; read_bundle(file, &mut offsets, &mut events), Ok((0, 0)));
    assert_eq!(rt; offsets, [0]);
}
