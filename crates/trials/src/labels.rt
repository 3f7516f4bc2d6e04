use event::kind::Kind;
use event::order::Order;
use event::refusal::Refusal;
use event::scanner::Scanner;
use event::station::Station;

#[test]
fn scanner_labels_read(rt: HostRuntime) {
    assert_eq!(rt; Scanner::read_label(b"4095"), Ok(Scanner { code: 4095 }));
    assert_eq!(rt; Scanner::read_label(b"0"), Ok(Scanner { code: 0 }));
    assert_eq!(rt; Scanner::read_label(b"4096"), Err(Refusal::Mark));
    assert_eq!(rt; Scanner::read_label(b"010"), Err(Refusal::Mark));
    assert_eq!(rt; Scanner::read_label(b""), Err(Refusal::Mark));
    assert_eq!(rt; Scanner::read_label(b"12:d"), Err(Refusal::Mark));
}

#[test]
fn scanner_records(rt: HostRuntime) {
    let mut row = *b"......";
    let past = Scanner { code: 9000 };
    assert_eq!(rt; past.write_label(&mut row), Ok(4));
    assert_eq!(rt; row, *b"4095..");
    assert_eq!(rt; past.compare(&Scanner { code: 4095 }), Order::Alike);
    assert_eq!(rt; past.compare(&Scanner { code: 4094 }), Order::After);
    assert_eq!(rt; Scanner::read(&[0x0F, 0xFF]), Ok(Scanner { code: 4095 }));
    assert_eq!(rt; Scanner::read(&[0x10, 0]), Err(Refusal::Event));
    assert_eq!(rt; Scanner::read(&[1]), Err(Refusal::Event));
}

#[test]
fn station_labels_read(rt: HostRuntime) {
    let late = Station {
        action: 7,
        outcome: 2,
        station: 0,
    };
    assert_eq!(rt; Station::read_label(b"7:t"), Ok(late));
    assert_eq!(rt; Station::read_label(b"0:t"), Err(Refusal::Mark));
    assert_eq!(rt; Station::read_label(b"100:d"), Err(Refusal::Mark));
    assert_eq!(rt; Station::read_label(b"07:d"), Err(Refusal::Mark));
    assert_eq!(rt; Station::read_label(b"7:x"), Err(Refusal::Mark));
    assert_eq!(rt; Station::read_label(b":d"), Err(Refusal::Mark));
}

#[test]
fn station_records(rt: HostRuntime) {
    let done = Station {
        action: 12,
        outcome: 0,
        station: 5,
    };
    let mut row = *b".....";
    assert_eq!(rt; done.write_label(&mut row), Ok(4));
    assert_eq!(rt; row, *b"12:d.");
    let mut short = *b"...";
    assert_eq!(rt; done.write_label(&mut short), Err(Refusal::Room));
    assert_eq!(rt; short, *b"...");
    let bytes = Station {
        action: 7,
        outcome: 2,
        station: 256,
    };
    assert_eq!(rt; Station::read(&[7, 2, 1, 0]), Ok(bytes));
    assert_eq!(rt; Station::read(&[0, 2, 1, 0]), Err(Refusal::Event));
    assert_eq!(rt; Station::read(&[7, 3, 1, 0]), Err(Refusal::Event));
}

#[test]
fn station_order(rt: HostRuntime) {
    let low = Station {
        action: 0,
        outcome: 9,
        station: 1,
    };
    let one = Station {
        action: 1,
        outcome: 2,
        station: 2,
    };
    assert_eq!(rt; low.compare(&one), Order::Alike);
    let done = Station {
        action: 1,
        outcome: 0,
        station: 3,
    };
    assert_eq!(rt; done.compare(&one), Order::Before);
    let next = Station {
        action: 2,
        outcome: 0,
        station: 0,
    };
    assert_eq!(rt; next.compare(&one), Order::After);
}
