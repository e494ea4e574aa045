// Bytes and words of 16 bits, those of a path or a viewer's places, out of cells and back into them.

// A word that a cell holds, by its type: a byte or 16 bits.
pub trait Word: Copy + Into<u64> {
    // The word in a cell, its low bits.
    fn of_cell(cell: u64) -> Self;
}

impl Word for u8 {
    fn of_cell(cell: u64) -> u8 {
        (cell % 256) as u8
    }
}

impl Word for u16 {
    fn of_cell(cell: u64) -> u16 {
        (cell % 65536) as u16
    }
}

// The words in cells, as many as there are and as there is space for.
pub fn load<W: Word>(cells: &[u64], words: &mut [W]) {
    for (word, cell) in words.iter_mut().zip(cells) {
        *word = W::of_cell(*cell);
    }
}

// Words back into cells.
pub fn save<W: Word>(words: &[W], cells: &mut [u64]) {
    for (cell, word) in cells.iter_mut().zip(words) {
        *cell = (*word).into();
    }
}
