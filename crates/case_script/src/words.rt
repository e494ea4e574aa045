// Lines of a script and the words on them.
ghost use Rattle.std.specs.Prelude.{◌≤◌, length};

// The first place, from a place on, at which a text has a byte; the text's end where it has none.
pub fn find_byte(text: &[u8], from: usize, byte: u8) -> usize
    requires { from ≤ length text.now }
    ensures { (from ≤ result) × (result ≤ length text.now) }
{
    for at in from..text.len() {
        if text[at] == byte {
            return at;
        }
    }
    text.len()
}

// What follows the first word of a text, from the space after it on. A space at the text's start belongs to its first word.
pub fn after_word(text: &[u8]) -> &[u8] {
    if text.len() == 0 {
        return text;
    }
    let at = find_byte(text, 1, b' ');
    &text[at..]
}

// The key of a word with one letter more; the greatest number where it has over eight.
fn with_letter(key: u64, letter: u8) -> u64 {
    if 0xFF_FFFF_FFFF_FFFF < key {
        return u64::MAX;
    }
    256 * key + letter as u64
}

// The first word of a text as a number: its letters, two hexadecimal digits each. 0 where there is none.
pub fn key_of(text: &[u8]) -> u64 {
    let mut key = 0;
    for letter in text {
        if *letter == b' ' {
            if 0 < key {
                return key;
            }
        } else {
            key = with_letter(key, *letter);
        }
    }
    key
}
