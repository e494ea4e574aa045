// What the programs share on the command line: arguments, files by name, the class of the tests, and what they say on standard error.
#![tactic(auto)]

mod arguments;
mod class_file;
mod failures;
mod files;

pub use arguments::{argument, file_name, has_argument, is_argument};
pub use class_file::{ClassRead, class_chosen, read_class, read_listed_class};
pub use failures::print_failure;
pub use files::{
    Content, Opened, at_end, close_file, file_size, load_argument, load_file, open_file, read_full,
};
use std::io::{IsTerminal, Stderr};

// The descriptor of standard error.
const STDERR_FILENO: i32 = 2;

// Writes a text to standard error. Nothing is returned by this and the functions of progress, so there is nothing to promise: no contract can say what the
// system takes.
pub fn print_error(text: &[u8]) {
    io::write_all(STDERR_FILENO, text);
}

// Where standard error is a terminal, shows how many test records are done, over what it showed before.
pub fn show_progress(stderr: Stderr, records: u64) {
    if !stderr.is_terminal() {
        return;
    }
    print_error(b"\r");
    io::print_decimal(STDERR_FILENO, records);
    print_error(b" records");
}

// Clears the line of progress.
pub fn end_progress(stderr: Stderr) {
    if !stderr.is_terminal() {
        return;
    }
    print_error(b"\r                            \r");
}
