// A sender's methods, called from another crate.
use sender::{Called, Phase, Sender, fresh};
use units::{Octets, Packets, Refusal};

// Two packets with 8 octets of the sequence 100, behind one packet with 7 octets of an earlier one.
const OPEN: Sender = Sender {
    phase: Phase::Open,
    stamp: 100,
    number: Packets(2),
    elapsed: Octets(8),
    packets: Packets(3),
    octets: Octets(15),
};

// The same, once the sequence was closed.
const CLOSED: Sender = Sender {
    phase: Phase::Closed,
    stamp: 100,
    number: Packets(0),
    elapsed: Octets(0),
    packets: Packets(3),
    octets: Octets(15),
};

#[test]
fn open_between_opening_and_closing(rt: HostRuntime) {
    for (s, want) in [(fresh(), false), (OPEN, true), (CLOSED, false)] {
        assert_eq!(rt; s.is_open(), want, "{s:?}");
    }
}

#[test]
fn later_than_the_last_stamp_of_the_period(rt: HostRuntime) {
    for (stamp, want) in [(0, true), (100, true), (101, false), (59999, false)] {
        assert_eq!(rt; CLOSED.is_not_later(stamp), want, "at {stamp}");
        assert!(rt; !OPEN.is_not_later(stamp), "open, at {stamp}");
        assert!(rt; !fresh().is_not_later(stamp), "fresh, at {stamp}");
    }
}

#[test]
fn damaged_by_one_number(rt: HostRuntime) {
    for s in [
        fresh(),
        OPEN,
        CLOSED,
        Sender {
            stamp: 59999,
            ..CLOSED
        },
    ] {
        assert!(rt; !s.is_damaged(), "{s:?}");
    }
    for s in [
        Sender {
            stamp: 60000,
            ..CLOSED
        },
        Sender {
            stamp: 1,
            ..fresh()
        },
        Sender {
            packets: Packets(16777216),
            ..CLOSED
        },
        Sender {
            number: Packets(4),
            ..OPEN
        },
        Sender {
            elapsed: Octets(16),
            ..OPEN
        },
        Sender {
            number: Packets(1),
            ..CLOSED
        },
    ] {
        assert!(rt; s.is_damaged(), "{s:?}");
    }
}

#[test]
fn closing_has_the_counts_and_the_totals(rt: HostRuntime) {
    let c = OPEN.closing();
    assert_eq!(rt; c.stamp, 100);
    assert_eq!(rt; c.number, Packets(2));
    assert_eq!(rt; c.elapsed, Octets(8));
    assert_eq!(rt; c.packets, Packets(3));
    assert_eq!(rt; c.octets, Octets(15));
}

#[test]
fn refused_call_leaves_the_sender(rt: HostRuntime) {
    let t: Called<usize> = OPEN.refused(Refusal::NoRoom);
    assert_eq!(rt; t.answer, Err(Refusal::NoRoom));
    assert_eq!(rt; t.sender, OPEN);
}

#[test]
fn begun_packet_and_rest(rt: HostRuntime) {
    let t = CLOSED.begun(101);
    assert_eq!(rt; t.answer, Ok(()));
    assert_eq!(rt;
        t.sender,
        Sender {
            phase: Phase::Open,
            stamp: 101,
            ..CLOSED
        }
    );
    assert_eq!(rt;
        OPEN.with_packet(4095),
        Sender {
            number: Packets(3),
            elapsed: Octets(4103),
            packets: Packets(4),
            octets: Octets(4110),
            ..OPEN
        }
    );
    assert_eq!(rt; OPEN.at_rest(), CLOSED);
}
