// The words of the command line.
ghost use Rattle.std.specs.Prelude.{◌≡◌, length};
ghost use Rattle.std.proofs.lemmas.List.Edits.{sets};
ghost use Rattle.io.specs.Counts.{IsPrefixLen};
ghost use Rattle.model.specs.Report.{same_bytes};
ghost use Rattle.program_files.specs.Files.{ArgumentTold, NameTold, usual_in};

use std::env::FillError;
use std::rt::Env;
use text_line::inner::put_text;

// Whether the command line has an argument of this place; the program's own name has place 0.
pub fn has_argument(rt: &impl Env, place: usize) -> bool {
    let mut space = [0u8; 1];
    match rt.arg(place, &mut space) {
        Ok(_) => true,
        Err(FillError::TooLong) => true,
        Err(FillError::NotPresent) => false,
    }
}

// Puts an argument at the start of a space, and returns its length; 0 where there is none, or where it is longer than the space.
pub fn argument(rt: &impl Env, place: usize, space: &mut [u8]) -> usize
    ensures { IsPrefixLen result space.new }
{
    match rt.arg(place, space) {
        Ok(n) => n,
        Err(_) => 0,
    }
}

// Whether two texts are the same.
fn same_text(left: &[u8], right: &[u8]) -> bool
    ensures { result ≡ same_bytes left.now right.now }
{
    if left.len() != right.len() {
        return false;
    }
    for i in 0..left.len() {
        if left[i] != right[i] {
            return false;
        }
    }
    true
}

// Whether an argument is this word.
pub fn is_argument(rt: &impl Env, place: usize, word: &[u8]) -> bool
    ensures { ArgumentTold result word.now }
{
    let mut space = io::buffer();
    let n = argument(rt, place, &mut space);
    same_text(&space[..n], word)
}

// Puts the usual name at the start of a space; none where the space does not hold it.
fn put_usual(usual: &[u8], space: &mut [u8]) -> usize
    ensures prefix_len { IsPrefixLen result space.new }
    ensures value { (result ≡ length (usual_in usual.now space.old))
        × (space.new ≡ sets space.old 0 (usual_in usual.now space.old)) }
{
    if space.len() < usual.len() {
        return 0;
    }
    put_text(space, 0, usual)
}

// Puts the file name that an argument gives at the start of a space, or the usual name where there is no such argument.
pub fn file_name(rt: &impl Env, place: usize, usual: &[u8], space: &mut [u8]) -> usize
    ensures prefix_len { IsPrefixLen result space.new }
    ensures name_told { NameTold place result usual.now space.old space.new }
{
    if has_argument(rt, place) {
        return argument(rt, place, space);
    }
    put_usual(usual, space)
}
