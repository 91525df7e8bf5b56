// The tables of damaged pages: what is done to a good page, and where it is then at fault, worked out by hand from the
// page's rules. But for the last two, the page is the small farm's.

use Damaged::{Cut, Patched};

// A damaged page, and the line and the column at which it is then at fault. The fields have no names, so that a row of the
// tables takes one line.
#[derive(Clone, Copy)]
pub enum Damaged {
    // Other bytes stand from a place on: the page's name, the place, the bytes; the line, the column.
    Patched(&'static str, usize, &'static [u8], u16, u16),
    // Only so many bytes are left: the page's name, how many; the line, the column.
    Cut(&'static str, usize, u16, u16),
}

// Faults of the first line.
pub const FIRST_LINE: [Damaged; 17] = [
    Patched("l blank", 0, b"     ", 1, 1),
    Patched("l 0", 0, b"    0", 1, 1),
    Patched("l 513", 0, b"  513", 1, 1),
    Patched("l with a zero in front", 0, b"   04", 1, 1),
    Patched("l with a letter", 0, b"   x4", 1, 1),
    Patched("l with a space right of the digit", 0, b"   4 ", 1, 1),
    Patched("l with a sign", 0, b"   +4", 1, 1),
    Patched("l of five digits", 0, b"99999", 1, 1),
    Patched("n blank", 5, b"     ", 1, 6),
    Patched("n 0", 5, b"    0", 1, 6),
    Patched("n 513", 5, b"  513", 1, 6),
    Patched("n with a zero in front", 5, b"   02", 1, 6),
    Patched("n with a letter", 5, b"   x2", 1, 6),
    Patched("n with a space right of the digit", 5, b"   2 ", 1, 6),
    Patched("n with a sign", 5, b"   +2", 1, 6),
    Patched("n of five digits", 5, b"99999", 1, 6),
    Patched("newline of line 1", 10, b"x", 1, 11),
];

// Faults of the materials' lines.
pub const MATERIALS: [Damaged; 9] = [
    Patched("material 1 with letter W", 11, b"W", 2, 1),
    Patched("material 3 with letter S", 25, b"S", 4, 1),
    Patched("material 2 with running number 3", 19, b"    3", 3, 2),
    Patched("material 2 with running number 02", 19, b"   02", 3, 2),
    Patched("material 2 with a blank running number", 19, b"     ", 3, 2),
    Patched("newline of material 1", 17, b" ", 2, 7),
    Patched("newline of material 4", 38, b"\r", 5, 7),
    Patched("two lines at fault", 24, b"x-    9", 3, 7),
    Patched("running number and newline wrong", 19, b"    9x", 3, 2),
];

// Faults of the units' lines, their lists aside.
pub const UNITS: [Damaged; 9] = [
    Patched("unit 1 withheld", 39, b"W", 6, 1),
    Patched("unit 2 with letter P", 126, b"P", 7, 1),
    Patched("unit 2 with running number 1", 127, b"    1", 7, 2),
    Patched("letter and running number wrong", 126, b"Q    9", 7, 1),
    Patched("free number with an input", 126, b"-", 7, 7),
    Patched("free number with an output", 126, b"-    2     ", 7, 47),
    Patched(
        "free number with its last field filled",
        126,
        b"-    2                                                                               1",
        7,
        82,
    ),
    Patched("newline of unit 1", 125, b"x", 6, 87),
    Patched("newline of unit 2", 212, b"x", 7, 87),
];

// Faults of lists.
pub const LISTS: [Damaged; 12] = [
    Patched("outputs 3, 1", 85, b"    3    1", 6, 52),
    Patched("outputs 1, 1", 85, b"    1    1", 6, 52),
    Patched("outputs 1, blank, 3", 85, b"    1         3", 6, 57),
    Patched("inputs blank, 2", 45, b"         2", 6, 12),
    Patched("input 5 of 4", 45, b"    5", 6, 7),
    Patched("input 0", 45, b"    0", 6, 7),
    Patched("input with a zero in front", 45, b"   02", 6, 7),
    Patched("input with a space right of the digit", 45, b"   2 ", 6, 7),
    Patched("input with a byte above 127", 45, b"\xff", 6, 7),
    Patched("last input filled after blanks", 80, b"    3", 6, 42),
    Patched("last output filled after blanks", 120, b"    4", 6, 82),
    Patched("last output with a letter", 120, b"    x", 6, 82),
];

// Bytes after the end, and counts that promise other lines than there are.
pub const ENDS: [Damaged; 8] = [
    Patched("one byte too many", 213, b"\n", 8, 0),
    Patched(
        "many bytes too many",
        213,
        b"S    3                                                                                \n",
        8,
        0,
    ),
    Patched("l promises one line more", 0, b"    5", 6, 1),
    Patched("l promises all lines", 0, b"  512", 6, 1),
    Patched("n promises one line more", 5, b"    3", 8, 0),
    Patched("n promises all lines", 5, b"  512", 8, 0),
    Patched("l promises one line less", 0, b"    3", 5, 2),
    Patched("n promises one line less", 5, b"    1", 7, 0),
];

// Bytes that end too early.
pub const CUT: [Damaged; 5] = [
    Cut("no bytes", 0, 1, 0),
    Cut("ten bytes", 10, 1, 0),
    Cut("cut after line 1", 11, 2, 0),
    Cut("cut short within material 1", 17, 2, 0),
    Cut("last newline missing", 212, 7, 0),
];

// Lists that fill their fields and do not ascend, on the page with a full line.
pub const FULL_LISTS: [Damaged; 2] = [
    Patched("eighth input as the seventh", 108, b"    7", 10, 42),
    Patched("eighth output as the first", 148, b"    1", 10, 82),
];

// A line that is both wrong and cut short, on the first hundred bytes of the small farm's page.
pub const WRONG_AND_CUT: [Damaged; 1] = [Patched(
    "cut short within unit 1, whose letter is wrong",
    39,
    b"Q",
    6,
    0,
)];
