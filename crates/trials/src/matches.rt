use bundle::tape::Tapes;
use event::refusal::Refusal;
use event::scanner::Scanner;
use event::station::Station;
use matching::learning::learn;
use matching::rows::check_rows;
use matching::support::support_of;
use trail::trail::Trail;

const TEN: Scanner = Scanner { code: 10 };

const TWENTY: Scanner = Scanner { code: 20 };

const THIRTY: Scanner = Scanner { code: 30 };

const FORTY: Scanner = Scanner { code: 40 };

// The worked bundle's rows.
const EVENTS: [Scanner; 12] = [
    TEN, TWENTY, TEN, THIRTY, TEN, THIRTY, FORTY, TWENTY, TEN, THIRTY, TEN, TWENTY,
];

const OFFSETS: [u32; 6] = [0, 4, 7, 9, 9, 12];

// The worked bundle's tapes.
fn tapes() -> Tapes<'static, Scanner> {
    Tapes {
        events: &EVENTS,
        offsets: &OFFSETS,
    }
}

// The worked bundle's events, cut by other offsets.
fn cut_by(offsets: &[u32]) -> Tapes<'_, Scanner> {
    Tapes {
        events: &EVENTS,
        offsets,
    }
}

#[test]
fn supports(rt: HostRuntime) {
    assert_eq!(rt; support_of(&tapes(), &[TEN]), Ok(4));
    assert_eq!(rt; support_of(&tapes(), &[TEN, TEN]), Ok(1));
    assert_eq!(rt; support_of(&tapes(), &[TWENTY, THIRTY]), Ok(1));
    assert_eq!(rt; support_of(&tapes(), &[THIRTY, THIRTY]), Ok(0));
    assert_eq!(rt; support_of(&tapes(), &[TWENTY, TEN, THIRTY]), Ok(1));
    assert_eq!(rt; support_of(&tapes(), &[]), Ok(5));
    assert_eq!(rt;
        support_of(&cut_by(&OFFSETS[0..5]), &[TEN]),
        Err(Refusal::Offsets)
    );
    assert_eq!(rt; support_of(&cut_by(&[]), &[TEN]), Err(Refusal::Offsets));
}

#[test]
fn lexicons(rt: HostRuntime) {
    let blank = Scanner { code: 7 };
    let mut row = [blank; 5];
    assert_eq!(rt; learn(&EVENTS, &mut row), Ok(4));
    assert_eq!(rt; row, [TEN, TWENTY, THIRTY, FORTY, blank]);
    let mut short = [blank; 3];
    assert_eq!(rt; learn(&EVENTS, &mut short), Err(Refusal::Room));
    assert_eq!(rt; short, [blank; 3]);
}

#[test]
fn the_first_of_a_class_is_learned(rt: HostRuntime) {
    let seven = Station {
        action: 12,
        outcome: 0,
        station: 7,
    };
    let nine = Station {
        action: 12,
        outcome: 0,
        station: 9,
    };
    let tape = [seven, nine];
    let tapes = Tapes {
        events: &tape,
        offsets: &[0, 2],
    };
    let mut row = [nine; 2];
    assert_eq!(rt; learn(&tape, &mut row), Ok(1));
    assert_eq!(rt; row[0], seven);
    assert_eq!(rt; support_of(&tapes, &[nine, nine]), Ok(1));
}

#[test]
fn rows_are_checked(rt: HostRuntime) {
    assert!(rt; check_rows(&tapes(), &[TEN, TWENTY]).is_ok());
    assert_eq!(rt; check_rows(&tapes(), &[TEN, TEN]), Err(Refusal::Lexicon));
    assert_eq!(rt;
        check_rows(&cut_by(&[0, 4, 3, 12]), &[TWENTY, TEN]),
        Err(Refusal::Offsets)
    );
}

#[test]
fn the_trail_walks(rt: HostRuntime) {
    let lexicon = [TEN, TWENTY, THIRTY, FORTY];
    let tapes = Tapes {
        events: &EVENTS,
        offsets: &OFFSETS,
    };
    let mut trail = Trail::open(tapes, &lexicon);
    assert_eq!(rt; trail.support(), 5);
    assert_eq!(rt; trail.deeper(0, 2), Some(4));
    assert_eq!(rt; trail.try_event(&TEN), 1);
    assert_eq!(rt; trail.deeper(0, 2), None);
    assert_eq!(rt; trail.deeper(1, 2), Some(2));
    assert_eq!(rt; trail.deeper(4, 0), None);
    assert_eq!(rt; trail.try_event(&THIRTY), 1);
    assert_eq!(rt; trail.depth(), 2);
    assert_eq!(rt; trail.back(), true);
    assert_eq!(rt; trail.deeper(2, 2), Some(2));
    assert_eq!(rt; trail.back(), true);
    assert_eq!(rt; trail.back(), true);
    assert_eq!(rt; trail.back(), false);
    assert_eq!(rt; trail.support(), 5);
}
