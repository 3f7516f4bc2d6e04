use event::refusal::Refusal;
use event::scanner::Scanner;
use filter::all::All;
use filter::both::Both;
use filter::filter::Filter;
use filter::holds::Holds;
use filter::lacks::Lacks;
use filter::length::Length;
use std::test::Fail;

const TEN: Scanner = Scanner { code: 10 };

const TWENTY: Scanner = Scanner { code: 20 };

#[test]
fn lengths(rt: HostRuntime) -> Result<(), Fail> {
    assert!(rt; Length::new(0, 3).is_err());
    assert!(rt; Length::new(3, 2).is_err());
    assert!(rt; Length::new(1, 17).is_err());
    let Ok(two) = Length::new(2, 2) else {
        return Err(Fail::new("length"));
    };
    assert!(rt; !two.wanted(&[TEN]));
    assert!(rt; !two.is_barren(&[TEN]));
    assert!(rt; two.wanted(&[TEN, TEN]));
    assert!(rt; two.is_barren(&[TEN, TEN]));
    Ok(())
}

#[test]
fn events_held_and_lacked(rt: HostRuntime) {
    let holds = Holds { event: TEN };
    let lacks = Lacks { event: TWENTY };
    let both = Both {
        first: holds,
        second: lacks,
    };
    assert!(rt; both.wanted(&[TEN]));
    assert!(rt; !both.wanted(&[]));
    assert!(rt; !both.is_barren(&[]));
    assert!(rt; !both.wanted(&[TEN, TWENTY]));
    assert!(rt; both.is_barren(&[TWENTY]));
    let empty: [Scanner; 0] = [];
    assert!(rt; All.wanted(&empty));
}
