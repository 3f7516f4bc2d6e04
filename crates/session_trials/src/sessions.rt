use bundle::tape::Tapes;
use event::refusal::Refusal;
use event::scanner::Scanner;
use filter::all::All;
use filter::both::Both;
use filter::filter::Filter;
use filter::lacks::Lacks;
use filter::length::Length;
use session::opening::Opening;
use session::session::Session;
use std::process::Abort;
use std::test::Fail;

const TEN: Scanner = Scanner { code: 10 };

const TWENTY: Scanner = Scanner { code: 20 };

const THIRTY: Scanner = Scanner { code: 30 };

const FORTY: Scanner = Scanner { code: 40 };

// The worked bundle's rows, and its lexicon, written out: a session is tried on rows that no reader made.
const EVENTS: [Scanner; 12] = [
    TEN, TWENTY, TEN, THIRTY, TEN, THIRTY, FORTY, TWENTY, TEN, THIRTY, TEN, TWENTY,
];

const OFFSETS: [u32; 6] = [0, 4, 7, 9, 9, 12];

const LEXICON: [Scanner; 4] = [TEN, TWENTY, THIRTY, FORTY];

// An opening of the worked bundle.
fn opening(threshold: u32, longest: u32) -> Opening<'static, Scanner> {
    Opening {
        tapes: Tapes {
            events: &EVENTS,
            offsets: &OFFSETS,
        },
        lexicon: &LEXICON,
        threshold,
        longest,
    }
}

// Holds a next to a pattern and its support.
fn gives<'a, F: Filter<Scanner>>(
    rt: &impl Abort,
    session: &mut Session<'a, Scanner>,
    filter: &F,
    places: &[u16],
    support: u32,
) {
    let mut row = [99; 16];
    assert_eq!(rt;
        session.next(filter, &mut row),
        Ok(Some((places.len(), support)))
    );
    assert!(rt; &row[0..places.len().min(16)] == places);
    assert_eq!(rt; row[15], 99);
}

#[test]
fn a_list_is_read_to_its_end(rt: HostRuntime) -> Result<(), Fail> {
    let mut session = Session::new(TEN, rt.alloc())?;
    assert_eq!(rt; session.open(opening(2, 3)), Ok(()));
    gives(&rt, &mut session, &All, &[0], 4);
    gives(&rt, &mut session, &All, &[0, 1], 2);
    gives(&rt, &mut session, &All, &[0, 2], 2);
    gives(&rt, &mut session, &All, &[1], 3);
    gives(&rt, &mut session, &All, &[1, 0], 2);
    assert_eq!(rt; session.probe(&THIRTY), Ok(1));
    gives(&rt, &mut session, &All, &[2], 3);
    assert_eq!(rt; session.next(&All, &mut [0; 16]), Ok(None));
    assert_eq!(rt; session.next(&All, &mut [0; 3]), Ok(None));
    assert_eq!(rt; session.tell(), Ok((2, 6)));
    Ok(())
}

#[test]
fn skip_and_raise(rt: HostRuntime) -> Result<(), Fail> {
    let mut session = Session::new(TEN, rt.alloc())?;
    assert_eq!(rt; session.open(opening(2, 3)), Ok(()));
    gives(&rt, &mut session, &All, &[0], 4);
    assert_eq!(rt; session.skip(), Ok(()));
    gives(&rt, &mut session, &All, &[1], 3);
    gives(&rt, &mut session, &All, &[1, 0], 2);
    assert_eq!(rt; session.open(opening(2, 3)), Ok(()));
    gives(&rt, &mut session, &All, &[0], 4);
    gives(&rt, &mut session, &All, &[0, 1], 2);
    assert_eq!(rt; session.raise(3), Ok(()));
    gives(&rt, &mut session, &All, &[1], 3);
    gives(&rt, &mut session, &All, &[2], 3);
    assert_eq!(rt; session.next(&All, &mut [0; 16]), Ok(None));
    assert_eq!(rt; session.tell(), Ok((3, 4)));
    Ok(())
}

#[test]
fn calls_are_refused(rt: HostRuntime) -> Result<(), Fail> {
    let mut session = Session::new(TEN, rt.alloc())?;
    assert_eq!(rt; session.next(&All, &mut []), Err(Refusal::Closed));
    assert_eq!(rt; session.skip(), Err(Refusal::Closed));
    assert_eq!(rt; session.raise(0), Err(Refusal::Closed));
    assert_eq!(rt; session.probe(&TEN), Err(Refusal::Closed));
    assert_eq!(rt; session.tell(), Err(Refusal::Closed));
    assert_eq!(rt; session.open(opening(0, 0)), Err(Refusal::Threshold));
    assert_eq!(rt; session.open(opening(513, 3)), Err(Refusal::Threshold));
    assert_eq!(rt; session.open(opening(512, 17)), Err(Refusal::Length));
    assert_eq!(rt; session.open(opening(512, 16)), Ok(()));
    assert_eq!(rt; session.skip(), Err(Refusal::Nothing));
    assert_eq!(rt; session.raise(511), Err(Refusal::Threshold));
    assert_eq!(rt; session.next(&All, &mut [0; 15]), Err(Refusal::Room));
    assert_eq!(rt; session.next(&All, &mut [0; 16]), Ok(None));
    assert_eq!(rt; session.next(&All, &mut [0; 15]), Err(Refusal::Room));
    assert_eq!(rt; session.probe(&TEN), Err(Refusal::Nothing));
    Ok(())
}

#[test]
fn filters_are_asked(rt: HostRuntime) -> Result<(), Fail> {
    let mut session = Session::new(TEN, rt.alloc())?;
    let Ok(pairs) = Length::new(2, 2) else {
        assert!(rt; false);
        return Ok(());
    };
    let filter = Both {
        first: pairs,
        second: Lacks { event: THIRTY },
    };
    assert_eq!(rt; session.open(opening(2, 3)), Ok(()));
    gives(&rt, &mut session, &filter, &[0, 1], 2);
    gives(&rt, &mut session, &filter, &[1, 0], 2);
    assert_eq!(rt; session.next(&filter, &mut [0; 16]), Ok(None));
    Ok(())
}
