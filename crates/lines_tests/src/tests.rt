use crate::words::word;
use lines::{Line, Lines, Stamps};
use wire::{Census, House, Name, Refusal, Stamp};

// Whether the line at place `i` is this one.
fn is_line(list: &Lines, i: usize, object: u32, holder: u8, stamp: u32, census: u32) -> bool {
    list.line(i)
        == Some(Line {
            object: Name(object),
            holder: House(holder),
            stamp: Stamp(stamp),
            census: Census(census),
        })
}

// An empty list finds nothing, and its calls change nothing.
#[test]
fn no_lines(rt: HostRuntime) {
    let mut objects = [0u32; 8];
    let mut holders = [0u32; 8];
    let mut stamps = [0u32; 8];
    let mut censuses = [0u32; 8];
    let mut list = Lines::new(
        &mut objects,
        &mut holders,
        &mut stamps,
        &mut censuses,
        House(0),
        3,
    );
    list.join(Census(1), &Stamps::new());
    list.sweep(Census(2));
    assert!(rt; word(&mut list, House(1), Stamp(9), &[]));
    assert!(rt; !list.mark(Name(16), House(1), Census(1)));
    assert!(rt; list.find(Name(16), House(1)).is_none());
    assert!(rt; list.line(0).is_none());
    assert!(rt; list.len() == 0);
}

// A line is entered, found, changed in place, marked once and taken away by a word.
#[test]
fn one_line(rt: HostRuntime) {
    let mut objects = [0u32; 8];
    let mut holders = [0u32; 8];
    let mut stamps = [0u32; 8];
    let mut censuses = [0u32; 8];
    let mut list = Lines::new(
        &mut objects,
        &mut holders,
        &mut stamps,
        &mut censuses,
        House(0),
        3,
    );
    assert!(rt; list.enter(Name(16), House(1), Stamp(1), Census(0)) == Ok(()));
    assert!(rt; list.enter(Name(16), House(1), Stamp(2), Census(4)) == Ok(()));
    assert!(rt; list.len() == 1 && is_line(&list, 0, 16, 1, 2, 4));
    assert!(rt;
        list.is_held(Name(16), House(1), Census(4)) && !list.is_held(Name(16), House(2), Census(4))
    );
    assert!(rt; list.mark(Name(16), House(1), Census(5)));
    assert!(rt; !list.mark(Name(16), House(1), Census(5)));
    assert!(rt; word(&mut list, House(2), Stamp(2), &[]) && list.len() == 1);
    assert!(rt; word(&mut list, House(1), Stamp(1), &[]) && list.len() == 1);
    assert!(rt; word(&mut list, House(1), Stamp(2), &[0, 0, 0, 16]) && list.len() == 1);
    assert!(rt; is_line(&list, 0, 16, 1, 2, 5));
    assert!(rt; word(&mut list, House(1), Stamp(2), &[0, 0, 0, 32]) && list.len() == 0);
}

// What is refused: an object of elsewhere, this house or no house as the holder, a new line in a full list.
#[test]
fn refusals(rt: HostRuntime) {
    let mut objects = [0u32; 2];
    let mut holders = [0u32; 2];
    let mut stamps = [0u32; 3];
    let mut censuses = [0u32; 4];
    let mut list = Lines::new(
        &mut objects,
        &mut holders,
        &mut stamps,
        &mut censuses,
        House(1),
        3,
    );
    assert!(rt; list.enter(Name(16), House(2), Stamp(1), Census(0)) == Err(Refusal::Malformed));
    assert!(rt; list.enter(Name(17), House(1), Stamp(1), Census(0)) == Err(Refusal::Malformed));
    assert!(rt; list.enter(Name(17), House(3), Stamp(1), Census(0)) == Err(Refusal::Malformed));
    assert!(rt; list.enter(Name(17), House(2), Stamp(1), Census(0)) == Ok(()));
    assert!(rt; list.enter(Name(17), House(0), Stamp(1), Census(0)) == Ok(()));
    assert!(rt; !list.has_room(Name(33), House(2)) && list.has_room(Name(17), House(2)));
    assert!(rt; list.enter(Name(33), House(2), Stamp(2), Census(0)) == Err(Refusal::NoRoom));
    assert!(rt; list.enter(Name(17), House(0), Stamp(2), Census(0)) == Ok(()));
    assert!(rt;
        is_line(&list, 0, 17, 2, 1, 0) && is_line(&list, 1, 17, 0, 2, 0) && list.len() == 2
    );
}

// A word takes its holder's lines away, up to its stamp, but for what it holds; the others close up in order.
#[test]
fn closing_up(rt: HostRuntime) {
    let mut objects = [0u32; 8];
    let mut holders = [0u32; 8];
    let mut stamps = [0u32; 8];
    let mut censuses = [0u32; 8];
    let mut list = Lines::new(
        &mut objects,
        &mut holders,
        &mut stamps,
        &mut censuses,
        House(0),
        3,
    );
    assert!(rt; list.enter(Name(16), House(1), Stamp(1), Census(0)).is_ok());
    assert!(rt; list.enter(Name(16), House(2), Stamp(1), Census(0)).is_ok());
    assert!(rt; list.enter(Name(48), House(1), Stamp(2), Census(0)).is_ok());
    assert!(rt; list.enter(Name(32), House(1), Stamp(3), Census(0)).is_ok());
    assert!(rt; list.enter(Name(64), House(1), Stamp(4), Census(0)).is_ok());
    assert!(rt; word(&mut list, House(1), Stamp(3), &[0, 0, 0, 48, 0, 0, 0, 80]));
    assert!(rt; list.len() == 3 && is_line(&list, 0, 16, 2, 1, 0));
    assert!(rt; is_line(&list, 1, 48, 1, 2, 0) && is_line(&list, 2, 64, 1, 4, 0));
}

// Lines not yet heard join a census, a telling marks another, and the rest is swept.
#[test]
fn a_census(rt: HostRuntime) {
    let mut objects = [0u32; 8];
    let mut holders = [0u32; 8];
    let mut stamps = [0u32; 8];
    let mut censuses = [0u32; 8];
    let mut list = Lines::new(
        &mut objects,
        &mut holders,
        &mut stamps,
        &mut censuses,
        House(0),
        3,
    );
    let mut seen = Stamps::new();
    assert!(rt; list.enter(Name(16), House(1), Stamp(1), Census(0)).is_ok());
    assert!(rt; list.enter(Name(32), House(1), Stamp(2), Census(0)).is_ok());
    assert!(rt; list.enter(Name(48), House(2), Stamp(1), Census(0)).is_ok());
    assert!(rt; seen.hear(House(1), Stamp(2)).is_ok() && seen.hear(House(1), Stamp(1)).is_ok());
    list.join(Census(1), &seen);
    assert!(rt; list.mark(Name(32), House(1), Census(1)));
    let mut names = [Name(0); 2048];
    let count = list.objects(&mut names);
    assert!(rt; names[..count] == [Name(16), Name(32), Name(48)]);
    let count = list.objects_in(Census(1), &mut names);
    assert!(rt; names[..count] == [Name(32), Name(48)]);
    list.sweep(Census(1));
    assert!(rt;
        list.len() == 2 && is_line(&list, 0, 32, 1, 2, 1) && is_line(&list, 1, 48, 2, 1, 1)
    );
}

// Stamps for a house rise from 1 and end at 4,294,967,295; one that came is new only above the highest.
#[test]
fn stamping(rt: HostRuntime) {
    let mut stamps = Stamps::new();
    assert!(rt; stamps.give(House(3)) == Ok(Stamp(1)));
    assert!(rt; stamps.give(House(3)) == Ok(Stamp(2)));
    assert!(rt; stamps.see(House(15), Stamp(7)) == Ok(()));
    assert!(rt; stamps.see(House(15), Stamp(7)) == Err(Refusal::OldStamp));
    assert!(rt; stamps.see(House(16), Stamp(1)) == Err(Refusal::Malformed));
    assert!(rt;
        stamps.seen_from(House(15)) == Stamp(7) && stamps.heard_from(House(15)) == Stamp(0)
    );
    stamps.given[3] = u32::MAX;
    assert!(rt; stamps.give(House(3)) == Err(Refusal::OutOfNumbers));
}
