// The characters that can stand at each place of a line, a code's eight the first of them. What a character stands for is its place in the row of those that can stand there.
ghost use Rattle.std.specs.Prelude.{◌≡◌, ◌==◌, [], get_or, position};
ghost use Rattle.paper.specs.CodeText.{place_in, hex_digits, line_places};
ghost use Rattle.code_text.specs.CodeText.{value_in};

// The row of a place, counted from the line's start; behind the line it is empty.
#[tactic(auto, unfolding(paper::specs::CodeText::code_places, paper::specs::CodeText::line_places))]
fn row(place: usize) -> &'static [u8]
    ensures { result.now ≡ get_or line_places place [] }
{
    match place {
        0 => b"PCBU",
        1 => b"0123",
        5 => b"-",
        8 => b" ",
        11 => b"\n",
        2..=10 => b"0123456789ABCDEF",
        _ => b"",
    }
}

// The character that stands for a number there; 0 where there is none, as `get_or` of the contract has it.
pub(crate) fn character(place: usize, n: u8) -> u8
    ensures { result ≡ get_or (get_or line_places place []) n 0 }
{
    match row(place).get(usize::from(n)) {
        Some(c) => *c,
        None => 0,
    }
}

// The first place of a row at which a character stands.
fn place_of(row: &[u8], c: u8) -> Option<usize>
    ensures { result ≡ position (λ x. c == x) row.now }
{
    row.iter().position(|x| c == *x)
}

// The place of a character among the hex digits, 0 to 9 and then A to F; 16 where it is none of them.
// A number, and no `Option`: so each comparison is a choice between two numbers, and no branch that a processor has to guess. Nearly all of a text is hex digits.
fn hex_place(c: u8) -> u8
    ensures { result ≡ place_in hex_digits c }
{
    if c < b'0' {
        return 16;
    }
    if c <= b'9' {
        return c - b'0';
    }
    if c < b'A' {
        return 16;
    }
    if c <= b'F' {
        return c - b'A' + 10;
    }
    16
}

// The number of a hex digit.
pub fn hex_value(c: u8) -> Option<usize>
    ensures { result ≡ value_in hex_digits c }
{
    let place = hex_place(c);
    if place < 16 {
        Some(usize::from(place))
    } else {
        None
    }
}

// The number of a letter that a code begins with: P, C, B or U.
fn letter_value(c: u8) -> Option<usize>
    ensures { result ≡ value_in (get_or line_places 0 []) c }
{
    match c {
        b'P' => Some(0),
        b'C' => Some(1),
        b'B' => Some(2),
        b'U' => Some(3),
        _ => None,
    }
}

// The number of a digit from 0 to 3.
fn quarter_value(c: u8) -> Option<usize>
    ensures { result ≡ value_in (get_or line_places 1 []) c }
{
    match c {
        b'0' => Some(0),
        b'1' => Some(1),
        b'2' => Some(2),
        b'3' => Some(3),
        _ => None,
    }
}

// The number that a character stands for there, or nothing where it can't stand.
pub(crate) fn value(place: usize, c: u8) -> Option<usize>
    ensures { result ≡ value_in (get_or line_places place []) c }
{
    match place {
        0 => letter_value(c),
        1 => quarter_value(c),
        _ => {
            let row = row(place);
            if row.len() == 16 {
                hex_value(c)
            } else {
                place_of(row, c)
            }
        }
    }
}
