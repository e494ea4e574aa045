// The class of the tests, from a file with its one character.
ghost use Rattle.std.specs.Prelude.{◌≡◌, length};
ghost use Rattle.io.specs.Counts.{IsPrefixLen};
ghost use Rattle.program_files.specs.Files.{whole_told};
ghost use Rattle.program_files.specs.ClassFile.{ClassTold, class_chosen_of, class_in, class_listed};

use crate::arguments::{file_name, has_argument};
use crate::files::{Content, open_told, read_opened};
use model::{NON_ROBUST, ROBUST};
use std::fs::File;
use std::rt::{Env, Files};

// No class: the calls refuse it.
const NO_CLASS: u32 = 0;

// The class that a class file names, whether the program may judge by it, and what was read of it.
#[derive(Drop)]
pub struct ClassRead {
    pub class: u32,
    pub whole: bool,
    pub content: Content,
}

// The class that a file of such bytes chooses; the usual one where the file is missing.
pub fn class_chosen(usual: u32, missing: bool, bytes: &[u8]) -> u32
    ensures { result ≡ class_chosen_of usual missing bytes.now }
{
    if missing {
        return usual;
    }
    if bytes.len() != 1 {
        return NO_CLASS;
    }
    let character = bytes[0];
    if character == b'1' {
        return NON_ROBUST;
    }
    if character == b'2' {
        return ROBUST;
    }
    NO_CLASS
}

// Reads the first bytes of the class file that an argument names, class.txt where there is no such argument, as many as the space holds. A missing one is
// named only where an argument names it.
fn load_class<R: Env + Files<File = File>>(rt: &R, place: usize, space: &mut [u8]) -> Content
    ensures prefix_len { IsPrefixLen result.bytes space.new }
    ensures whole_value { result.whole ≡ whole_told result (length space.new) }
{
    let mut name = io::buffer();
    let n = file_name(rt, place, b"class.txt", &mut name);
    let opened = open_told(rt, &name[..n], has_argument(rt, place));
    read_opened(&name[..n], opened, space)
}

// The class in that file; the usual one where it is missing. Two bytes of space tell a longer file from one character.
fn read_chosen<R: Env + Files<File = File>>(rt: &R, place: usize, usual: u32) -> ClassRead
    ensures { ClassTold (class_chosen_of usual) result }
{
    let mut space = [0u8; 2];
    let content = load_class(rt, place, &mut space);
    let n = content.bytes;
    ClassRead {
        class: class_chosen(usual, content.missing, &space[..n]),
        whole: content.whole,
        content,
    }
}

// The class in that file, for a report: an audited one is non-robust unless the audit is handed class 2.
pub fn read_class<R: Env + Files<File = File>>(rt: &R, place: usize) -> ClassRead
    ensures { ClassTold class_in result }
{
    read_chosen(rt, place, NON_ROBUST)
}

// The same for a program that lists: robust when nothing is said.
pub fn read_listed_class<R: Env + Files<File = File>>(rt: &R, place: usize) -> ClassRead
    ensures { ClassTold class_listed result }
{
    read_chosen(rt, place, ROBUST)
}
