// A memory of a script: a cell of 64 bits for each of its words or bytes. Lines set it, or ask what is in it.

use crate::answers::{Answer, has_space, no_words, one, unknown, with};
use crate::names::{ADD, AT, BEGINS, COUNT, CUT, FILL, IS, SET};
use crate::numbers::{Length, Numbers, are, length_of, number_at, numbers_in, put_hex, wrong};
use crate::words::{after_word, key_of};

// So many cells of the first; wrong where there are fewer.
fn first(count: u64, space: usize) -> Length {
    if (space as u64) < count {
        return wrong();
    }
    length_of(count as usize)
}

// Makes the first cells one word.
fn fill(cells: &mut [u64], count: u64, word: u64) -> Length {
    for (at, cell) in cells.iter_mut().enumerate() {
        if count <= at as u64 {
            break;
        }
        *cell = word;
    }
    first(count, cells.len())
}

// Sets one of the cells that are handed over.
fn set(cells: &mut [u64], length: usize, at: u64, word: u64) -> Length {
    if (length as u64) <= at {
        return wrong();
    }
    let place = at as usize;
    if cells.len() <= place {
        return wrong();
    }
    cells[place] = word;
    length_of(length)
}

// Sets the first cells to the numbers of a line, none of them over `most`.
fn put_numbers(cells: &mut [u64], numbers: Numbers, most: u64) -> Length {
    let count = numbers.count;
    for at in 0..count {
        let number = number_at(numbers, at);
        if most < number {
            return wrong();
        }
        let done = set(cells, count, at as u64, number);
        if !done.good {
            return wrong();
        }
    }
    Length {
        good: numbers.good,
        length: count,
    }
}

// A line that sets cells by numbers, none of them over `most`: `is` and words, `set` with a place and a word, `fill` with a length and a word.
fn change_words(what: &[u8], cells: &mut [u64], length: usize, most: u64) -> Length {
    let key = key_of(what);
    let numbers = numbers_in(after_word(what));
    if key == IS {
        return put_numbers(cells, numbers, most);
    }
    let place = number_at(numbers, 0);
    let word = number_at(numbers, 1);
    if !are(numbers, 2) {
        return wrong();
    }
    if most < word {
        return wrong();
    }
    if key == SET {
        return set(cells, length, place, word);
    }
    if key == FILL {
        return fill(cells, place, word);
    }
    wrong()
}

// A line that sets a memory of bytes: `is` and bytes, `add` and bytes, or as any memory.
fn change_bytes(what: &[u8], cells: &mut [u64], length: usize) -> Length {
    let key = key_of(what);
    if key == IS {
        return put_hex(after_word(what), cells, 0);
    }
    if key == ADD {
        return put_hex(after_word(what), cells, length);
    }
    change_words(what, cells, length, 255)
}

// A line that sets a memory whose words are not over `most`: `cut` and a length, or as a memory of bytes or of words.
pub fn change(what: &[u8], cells: &mut [u64], length: usize, most: u64) -> Length {
    let key = key_of(what);
    if key == CUT {
        let numbers = numbers_in(after_word(what));
        if are(numbers, 1) {
            return first(number_at(numbers, 0), length);
        }
        return wrong();
    }
    if most == 255 {
        return change_bytes(what, cells, length);
    }
    change_words(what, cells, length, most)
}

// At how many places two memories have the same word.
pub fn same_places(a: &[u64], b: &[u64]) -> Answer {
    one(
        a.iter()
            .zip(b)
            .filter(|(left, right)| **left == **right)
            .count() as u64,
    )
}

// How many of the first cells are the same in both, before one differs or one of them ends.
fn same_start(a: &[u64], b: &[u64]) -> Answer {
    one(
        a.iter()
            .zip(b)
            .take_while(|(left, right)| **left == **right)
            .count() as u64,
    )
}

// How many of the first cells are the bytes that a part of a line has in hexadecimal.
fn begins_with(part: &[u8], cells: &[u64]) -> Answer {
    let mut expected = [0u64; 128];
    let read = put_hex(part, &mut expected, 0);
    let length = read.length;
    if !read.good {
        return unknown();
    }
    if 128 < length {
        return unknown();
    }
    same_start(&expected[0..length], cells)
}

// The words from a place on, as many as an answer holds.
fn words_from(cells: &[u64], place: u64) -> Answer {
    let mut answer = no_words();
    for cell in cells.iter().skip(place as usize) {
        if !has_space(answer) {
            return answer;
        }
        answer = with(answer, *cell);
    }
    answer
}

// How many words are this one.
fn count_of(cells: &[u64], word: u64) -> Answer {
    one(cells.iter().filter(|cell| **cell == word).count() as u64)
}

// A line that asks what is in a memory: `at` a place, the `count` of a word, or how many bytes it `begins` with of those on the line.
pub fn ask(what: &[u8], cells: &[u64]) -> Answer {
    let key = key_of(what);
    if key == BEGINS {
        return begins_with(after_word(what), cells);
    }
    let numbers = numbers_in(after_word(what));
    let number = number_at(numbers, 0);
    if !are(numbers, 1) {
        return unknown();
    }
    if key == AT {
        return words_from(cells, number);
    }
    if key == COUNT {
        return count_of(cells, number);
    }
    unknown()
}
