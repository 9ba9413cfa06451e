use crate::words::word;
use lines::Lines;
use wire::{Census, House, Name, Stamp};

// Enters a line for each place; whether all had room.
fn fill(list: &mut Lines) -> bool {
    (0..2048).all(|i| {
        list.enter(Name(16 * i + 16), House(1), Stamp(i + 1), Census(0))
            .is_ok()
    })
}

// The first 2,000 objects of house 0, as a word has them.
fn first_objects(part: &mut [u8; 8000]) {
    let (places, _) = part.as_chunks_mut::<4>();
    for (i, place) in places.iter_mut().enumerate() {
        *place = (16 * i as u32 + 16).to_be_bytes();
    }
}

// A full list refuses a new line, and a word that holds the first 2,000 objects takes the others away.
#[test]
fn full_list(rt: HostRuntime) {
    let mut objects = [0u32; 2100];
    let mut holders = [0u32; 2100];
    let mut stamps = [0u32; 2100];
    let mut censuses = [0u32; 2100];
    let mut list = Lines::new(
        &mut objects,
        &mut holders,
        &mut stamps,
        &mut censuses,
        House(0),
        3,
    );
    assert!(rt; fill(&mut list) && list.len() == 2048);
    assert!(rt; list.enter(Name(16), House(2), Stamp(1), Census(0)).is_err());
    assert!(rt;
        list.enter(Name(16), House(1), Stamp(5000), Census(0))
            .is_ok()
            && list.len() == 2048
    );
    let mut part = [0u8; 8000];
    first_objects(&mut part);
    assert!(rt; word(&mut list, House(1), Stamp(2040), &part));
    assert!(rt; list.len() == 2008);
    assert!(rt;
        list.find(Name(32000), House(1)).is_some() && list.find(Name(32016), House(1)).is_none()
    );
    assert!(rt; list.find(Name(32656), House(1)).is_some());
}
