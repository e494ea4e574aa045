// The version of all programs, that of the file VERSION.
ghost use Rattle.std.specs.Prelude.{◌≡◌};
ghost use Rattle.text_line.specs.Lines.{text_of};
ghost use Rattle.program_sentences.specs.Version.{version_text};

use crate::conditions::alone;
use crate::{STDOUT_FILENO, print_line};
use text_line::Line;

// What `--version` writes.
pub fn version_line() -> Line
    ensures { text_of result ≡ version_text }
{
    alone(b"genduwal 1.15.0")
}

// Writes it to standard output. Nothing is returned, so there is nothing to promise.
pub fn print_version() {
    print_line(STDOUT_FILENO, version_line());
}
