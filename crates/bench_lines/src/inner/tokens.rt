// The names and signs of a line.
ghost use Rattle.std.specs.Prelude.{◌≡◌, ◌≤◌, length};
ghost use Rattle.bench_lines.specs.Text.{name_byte};
ghost use Rattle.bench_lines.specs.LineReading.{SpacesEnd, WordEnd, TokenIs};

// A name from a position to another, a sign with the position after it, or the line's end.
#[derive(Drop)]
pub enum NextToken {
    Name { from: usize, to: usize },
    Sign { byte: u8, next: usize },
    End,
}

// Whether a byte may stand in a name.
fn is_name_byte(b: u8) -> bool
    ensures { result ≡ name_byte b }
{
    if b < 0x30 {
        return false;
    }
    if b <= 0x39 {
        return true;
    }
    if b < 0x41 {
        return false;
    }
    if b <= 0x5A {
        return true;
    }
    if b == 0x5F {
        return true;
    }
    if b < 0x61 {
        return false;
    }
    b <= 0x7A
}

// The position of the first byte that is no space.
fn skip_spaces(line: &[u8], at: usize) -> usize
    requires { at ≤ length line.now }
    ensures { SpacesEnd result at line.now }
{
    for i in at..line.len() {
        if line[i] != 0x20 {
            return i;
        }
    }
    line.len()
}

// The position after the word that begins at a position.
fn word_end(line: &[u8], at: usize) -> usize
    requires { at ≤ length line.now }
    ensures { WordEnd result at line.now }
{
    for i in at..line.len() {
        let named = is_name_byte(line[i]);
        if !named {
            return i;
        }
    }
    line.len()
}

// The token at a position.
pub fn next_token(line: &[u8], at: usize) -> NextToken
    requires { at ≤ length line.now }
    ensures { TokenIs result at line.now }
{
    let from = skip_spaces(line, at);
    if line.len() <= from {
        return NextToken::End;
    }
    let byte = line[from];
    let named = is_name_byte(byte);
    if !named {
        return NextToken::Sign {
            byte,
            next: from + 1,
        };
    }
    let to = word_end(line, from);
    if 16 < to - from {
        return NextToken::Sign { byte: 0, next: to };
    }
    NextToken::Name { from, to }
}
