// Lines that set the memory of a name, and lines that ask about it.
use crate::answers::{Answer, unknown};
use crate::cells::{ask, change, same_places};
use crate::chains::add_chain;
use crate::names::{CHAIN, KEEP, KEPT, STORE, WORK};
use crate::numbers::{Length, are, length_of, numbers_in, wrong};
use crate::pages::{Lengths, NETLIST_PLACE, Page, STORE_WORDS, length_at, page_of, part};
use crate::words::{after_word, key_of};

// A line that sets the memory of a page: the netlist also by a chain of gates.
fn change_page(what: &[u8], page: Page, length: usize, cells: &mut [u64]) -> Length {
    let start = page.start;
    let end = page.end;
    if cells.len() < end {
        return wrong();
    }
    if end <= start {
        return wrong();
    }
    if key_of(what) != CHAIN {
        return change(what, &mut cells[start..end], length, page.most);
    }
    if page.place == NETLIST_PLACE {
        let numbers = numbers_in(after_word(what));
        return add_chain(&mut cells[start..end], length, numbers);
    }
    wrong()
}

// Copies the store to the words after the greatest store.
fn keep(store: &mut [u64]) {
    for at in 0..STORE_WORDS {
        if store.len() <= STORE_WORDS + at {
            return;
        }
        store[STORE_WORDS + at] = store[at];
    }
}

// A line that sets the store, or keeps a copy of it.
fn change_store(what: &[u8], length: usize, store: &mut [u64]) -> Length {
    if store.len() < STORE_WORDS {
        return wrong();
    }
    if key_of(what) != KEEP {
        return change(what, &mut store[0..STORE_WORDS], length, u64::MAX);
    }
    if are(numbers_in(after_word(what)), 0) {
        keep(store);
        return length_of(length);
    }
    wrong()
}

// Sets the memory of a name.
pub fn set_memory(
    line: &[u8],
    length: usize,
    cells: &mut [u64],
    store: &mut [u64],
    work: &mut [u64],
) -> Length {
    let name = key_of(line);
    let what = after_word(line);
    match name {
        STORE => change_store(what, length, store),
        WORK => change(what, work, length, u64::MAX),
        _ => change_page(what, page_of(name), length, cells),
    }
}

// A question about the store, also about the copy that was kept.
fn ask_store(what: &[u8], store: &[u64], kept: &[u64]) -> Answer {
    if key_of(what) != KEPT {
        return ask(what, store);
    }
    if are(numbers_in(after_word(what)), 0) {
        return same_places(store, kept);
    }
    unknown()
}

// A question about memory.
pub fn ask_memory(
    line: &[u8],
    lengths: Lengths,
    cells: &[u64],
    store: &[u64],
    work: &[u64],
) -> Answer {
    let name = key_of(line);
    let what = after_word(line);
    let page = page_of(name);
    let start = page.start;
    let length = length_at(lengths, page.place);
    if name == STORE {
        return ask_store(
            what,
            part(store, 0, length),
            part(store, STORE_WORDS, length),
        );
    }
    if name == WORK {
        return ask(what, part(work, 0, length));
    }
    if page.end <= start {
        return unknown();
    }
    ask(what, part(cells, start, length))
}
