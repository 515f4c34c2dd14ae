// Bookings of seats: a small kind of record, with a key of two fields and a bound of three places.
// And cleanings of rows, each under any of its chairs: these keys have no `==`, and are the same where their rows are.
ghost use Rattle.std.specs.Prelude.{◌&&◌, ◌==◌};
ghost use Rattle.std.proofs.Common.{rules};

use crate::{Ending, Full, Keyed, Register};

#[derive(Clone, Copy, PartialEq, Eq)]
struct Seat {
    row: u8,
    number: u8,
}

#[derive(Clone, Copy)]
struct Booking {
    seat: Seat,
    guest: u8,
    until: u64,
}

impl Keyed for Booking {
    type Key = Seat;

    ghost key = { λ b. b.seat };

    ghost same = { λ a b. (a.row == b.row) && a.number == b.number };

    ghost MOST = { 3 };

    const MOST: usize = 3;

    ghost reflexive = { Prim.search rules };

    ghost symmetric = { Prim.search rules };

    ghost transitive = { Prim.search rules };

    fn key_of(&self) -> Seat {
        self.seat
    }

    fn has_key(&self, k: Seat) -> bool {
        k == self.seat
    }
}

impl Ending for Booking {
    ghost last = { λ b. b.until };

    fn last_tick(&self) -> u64 {
        self.until
    }
}

fn booked(row: u8, number: u8, guest: u8, until: u64) -> Booking {
    Booking {
        seat: Seat { row, number },
        guest,
        until,
    }
}

// The guest who booked, 0 where there is none: guests are counted from 1.
fn guest(booking: Option<Booking>) -> u8 {
    match booking {
        Some(b) => b.guest,
        None => 0,
    }
}

fn guest_at(r: &Register<Booking>, row: u8, number: u8) -> u8 {
    guest(r.find(Seat { row, number }))
}

#[test]
fn no_place(rt: HostRuntime) {
    let mut places = [];
    let mut r = Register::new(&mut places);
    assert_eq!(rt; r.put(booked(1, 1, 7, 9)), Err(Full));
    assert_eq!(rt; guest(r.remove(Seat { row: 1, number: 1 })), 0);
    assert_eq!(rt; guest_at(&r, 1, 1), 0);
    assert_eq!(rt; r.capacity(), 0);
    assert_eq!(rt; r.count(), 0);
}

#[test]
fn one_place(rt: HostRuntime) {
    let mut places = [None; 1];
    let mut r = Register::new(&mut places);
    assert_eq!(rt; r.put(booked(1, 2, 7, 9)), Ok(()));
    assert_eq!(rt; r.put(booked(1, 2, 8, 9)), Ok(()), "replaces, though full");
    assert_eq!(rt;
        r.put(booked(2, 2, 9, 9)),
        Err(Full),
        "full, and another row"
    );
    assert_eq!(rt;
        r.put(booked(1, 1, 9, 9)),
        Err(Full),
        "full, and another number"
    );
    assert_eq!(rt; guest_at(&r, 1, 2), 8);
    assert_eq!(rt; guest(r.remove(Seat { row: 1, number: 2 })), 8);
    assert_eq!(rt; r.put(booked(2, 2, 9, 9)), Ok(()));
    assert_eq!(rt; guest_at(&r, 2, 2), 9);
}

#[test]
fn beyond_the_bound(rt: HostRuntime) {
    let mut places = [Some(booked(4, 4, 7, 9)); 5];
    let mut r = Register::new(&mut places);
    assert_eq!(rt; r.capacity(), 3);
    assert_eq!(rt; r.count(), 0);
    assert_eq!(rt; r.put(booked(1, 1, 1, 9)), Ok(()));
    assert_eq!(rt; r.put(booked(1, 2, 2, 9)), Ok(()));
    assert_eq!(rt; r.put(booked(2, 1, 3, 9)), Ok(()));
    assert_eq!(rt; r.put(booked(2, 2, 4, 9)), Err(Full));
    assert_eq!(rt; r.places().len(), 3);
    assert_eq!(rt; guest(places[3]), 7);
    assert_eq!(rt; guest(places[4]), 7);
}

#[test]
fn past_at_the_edge(rt: HostRuntime) {
    let mut places = [None; 3];
    let mut r = Register::new(&mut places);
    assert_eq!(rt; r.put(booked(1, 1, 1, 9)), Ok(()));
    assert_eq!(rt; r.put(booked(1, 2, 2, 10)), Ok(()));
    assert_eq!(rt; r.put(booked(2, 1, 3, 11)), Ok(()));
    assert_eq!(rt; r.count_not_past(10), 2);
    r.drop_past(10);
    assert_eq!(rt; r.count(), 2);
    assert_eq!(rt; guest_at(&r, 1, 1), 0);
    assert_eq!(rt; guest_at(&r, 1, 2), 2);
}

#[test]
fn put_once_past_are_dropped(rt: HostRuntime) {
    let mut places = [None; 1];
    let mut r = Register::new(&mut places);
    assert_eq!(rt; r.put_at(booked(1, 1, 1, 9), 0), Ok(()));
    assert!(rt; !r.has_room_at(9));
    assert_eq!(rt; r.put_at(booked(1, 2, 2, 10), 9), Err(Full));
    assert!(rt; r.has_room_at(10));
    assert_eq!(rt; r.put_at(booked(1, 2, 2, 10), 10), Ok(()));
    assert_eq!(rt; guest_at(&r, 1, 1), 0);
    assert_eq!(rt; guest_at(&r, 1, 2), 2);
}

#[derive(Clone, Copy)]
struct Spot {
    row: u8,
    chair: u8,
}

#[derive(Clone, Copy)]
struct Cleaning {
    spot: Spot,
    hour: u8,
}

impl Keyed for Cleaning {
    type Key = Spot;

    ghost key = { λ c. c.spot };

    ghost same = { λ a b. a.row == b.row };

    ghost MOST = { 2 };

    const MOST: usize = 2;

    ghost reflexive = { Prim.search rules };

    ghost symmetric = { Prim.search rules };

    ghost transitive = { Prim.search rules };

    fn key_of(&self) -> Spot {
        self.spot
    }

    fn has_key(&self, k: Spot) -> bool {
        k.row == self.spot.row
    }
}

fn cleaned(row: u8, chair: u8, hour: u8) -> Cleaning {
    Cleaning {
        spot: Spot { row, chair },
        hour,
    }
}

// The hour of a cleaning, 0 where there is none: hours are counted from 1.
fn hour(cleaning: Option<Cleaning>) -> u8 {
    match cleaning {
        Some(c) => c.hour,
        None => 0,
    }
}

#[test]
fn same_row(rt: HostRuntime) {
    let mut places = [None; 2];
    let mut r = Register::new(&mut places);
    assert_eq!(rt; r.put(cleaned(1, 1, 7)), Ok(()));
    assert_eq!(rt;
        r.put(cleaned(1, 2, 8)),
        Ok(()),
        "replaces: the row is the same"
    );
    assert_eq!(rt; r.count(), 1);
    assert_eq!(rt; hour(r.find(Spot { row: 1, chair: 9 })), 8);
    assert_eq!(rt; hour(r.find(Spot { row: 2, chair: 2 })), 0);
    assert_eq!(rt; r.put(cleaned(2, 2, 9)), Ok(()));
    assert_eq!(rt; r.put(cleaned(3, 2, 9)), Err(Full), "full, and another row");
    assert_eq!(rt; hour(r.remove(Spot { row: 1, chair: 5 })), 8);
    assert_eq!(rt; r.count(), 1);
    assert_eq!(rt; hour(r.find(Spot { row: 2, chair: 1 })), 9);
}
