// What is measured from other languages, from a static library: a house is told some lines, as the program `house` is, and then does one thing many times.

#![tactic(auto)]

use node::Answer;
use std::alloc::{AllocError, Global};
use store::Store;
use text::Request;
use wire::{House, Refusal};

// A line that is no order is refused as well.
fn told_line(heap: Global, store: &mut Store, line: &[u8]) -> Result<Answer, AllocError> {
    match text::read_line(line) {
        Ok(Some(Request::Order(order))) => console::follow(heap, store, order),
        Ok(Some(Request::View(_)) | None) => Ok(Err(Refusal::Malformed.into())),
        Err(refusal) => Ok(Err(refusal.into())),
    }
}

// The lines that end at these places, as C hands them in; how many were refused.
fn told(heap: Global, store: &mut Store, lines: &[u8], ends: &[u32]) -> u64 {
    let mut refused: u64 = 0;
    let mut at = 0;
    for end in ends {
        let end = *end as usize;
        if let Some(line) = lines.get(at..end) {
            let done = told_line(heap, store, line).is_ok_and(|answer| answer.is_ok());
            refused = refused.saturating_add(u64::from(!done));
            at = end;
        }
    }
    refused
}

// A house of four that was told some lines, and how many of them it refused; none where memory is wanting.
fn begun(heap: Global, lines: &[u8], ends: &[u32]) -> Option<(Store, u64)> {
    let mut store = Store::new(heap, House(0), 4).ok()?;
    let refused = told(heap, &mut store, lines, ends);
    Some((store, refused))
}

// A house is told some lines, and then one more so many times; how many objects it has in the end, and how many of the first lines it refused.
#[unsafe(no_mangle)]
pub extern "C" fn measures_call(
    heap: Global,
    lines: &[u8],
    ends: &[u32],
    again: &[u8],
    times: u32,
    refused: &mut u64,
) -> u64 {
    let Some((mut store, count)) = begun(heap, lines, ends) else {
        return 0;
    };
    *refused = count;
    for _ in 0..times {
        let _ = told_line(heap, &mut store, again);
    }
    store.objects().len() as u64
}

// A house is told some lines, and this message comes so many times; how many of these it refused.
#[unsafe(no_mangle)]
pub extern "C" fn measures_hear(
    heap: Global,
    lines: &[u8],
    ends: &[u32],
    message: &[u8],
    times: u32,
    refused: &mut u64,
) -> u64 {
    let Some((mut store, count)) = begun(heap, lines, ends) else {
        return 0;
    };
    *refused = count;
    let mut unheard: u64 = 0;
    for _ in 0..times {
        unheard = unheard.saturating_add(u64::from(store.got(message).is_err()));
    }
    unheard
}

// Reads a message and writes it anew; how many bytes it has, or 0 where it is none.
#[unsafe(no_mangle)]
pub extern "C" fn measures_copy(heap: Global, bytes: &[u8], houses: u8) -> u64 {
    let Ok(read) = wire::read(bytes, houses) else {
        return 0;
    };
    let mut out = Vec::new(heap);
    match wire::write(read.message, read.objects, &mut out) {
        Ok(()) => out.len() as u64,
        Err(_) => 0,
    }
}
