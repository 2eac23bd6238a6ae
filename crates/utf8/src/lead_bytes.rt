// The sequence class of each lead byte: one table of 256 entries.
//
// The first byte of a character, its lead byte, says how many bytes the character has and which the second may be; those after the second are
// from 80 to BF. Most lead bytes say the same as their neighbours do, so there are nine classes:
//
//     digit and class lead bytes             bytes   second byte
//     0  NoLead       80 to C1, F5 to FF     none    (80 to BF stand inside a character; C0 and C1 could only begin overlong forms)
//     1  Ascii        00 to 7F               1       none
//     2  LeadE0       E0                     3       A0 to BF, as 80 to 9F would make an overlong form
//     3  ThreeBytes   E1 to EC, EE and EF    3       80 to BF
//     4  LeadEd       ED                     3       80 to 9F, as A0 to BF would make a surrogate
//     5  LeadF0       F0                     4       90 to BF, as 80 to 8F would make an overlong form
//     6  FourBytes    F1 to F3               4       80 to BF
//     7  LeadF4       F4                     4       80 to 8F, as 90 to BF would make a number above 10FFFF
//     8  TwoBytes     C2 to DF               2       80 to BF
//
// Two bytes have the highest digit, so that one bit tells them from all others: most letters that are not ASCII have two.
//
// The rows of the table are written as numbers that a `match` hands out, and not as an array, because the compiler keeps such numbers in the
// program's constant data. An array it would lay down anew at every call, which takes longer than to check a short name.
//
// Of the lead byte ED, `class_of` takes the row E0 to EF, which is 3343 3333 3333 3332, and in it the digit of ED. The rightmost digit is that of
// E0, as a number counts its digits from there; that of ED is the fourteenth: class 4.
ghost use Rattle.std.specs.Prelude.{◌≡◌, ◌<◌};
ghost use Rattle.paper.specs.LeadBytes.{class_of};
ghost use Rattle.utf8.specs.LeadBytes.{seen, numbered, RowRight};

// What a lead byte says of its character; the variants stand in the order of the table's digits.
#[derive(Clone, Copy, PartialEq, Eq)]
pub(crate) enum Class {
    NoLead,
    Ascii,
    LeadE0,
    ThreeBytes,
    LeadEd,
    LeadF0,
    FourBytes,
    LeadF4,
    TwoBytes,
}

// The class that a digit of the table stands for. A function, and no `From<u64>`: only a digit of the table is the number of a class, and docs/STATEMENTS.md names it.
fn class_numbered(digit: u64) -> Class
    ensures { seen result ≡ numbered digit }
{
    match digit {
        1 => Class::Ascii,
        2 => Class::LeadE0,
        3 => Class::ThreeBytes,
        4 => Class::LeadEd,
        5 => Class::LeadF0,
        6 => Class::FourBytes,
        7 => Class::LeadF4,
        8 => Class::TwoBytes,
        _ => Class::NoLead,
    }
}

// The table, in rows of sixteen: the row of the lead bytes that begin with the hexadecimal digit `high`. Each digit of a row is the class of one
// lead byte, from right to left: in the row C0 to CF the first two lead nothing, and the fourteen after them lead two bytes.
fn row(high: u8) -> u64
    ensures { high < 16 → RowRight high result }
{
    match high {
        0x0 => 0x1111_1111_1111_1111, // 0F down to 00
        0x1 => 0x1111_1111_1111_1111, // 1F down to 10
        0x2 => 0x1111_1111_1111_1111, // 2F down to 20
        0x3 => 0x1111_1111_1111_1111, // 3F down to 30
        0x4 => 0x1111_1111_1111_1111, // 4F down to 40
        0x5 => 0x1111_1111_1111_1111, // 5F down to 50
        0x6 => 0x1111_1111_1111_1111, // 6F down to 60
        0x7 => 0x1111_1111_1111_1111, // 7F down to 70
        0x8 => 0x0000_0000_0000_0000, // 8F down to 80
        0x9 => 0x0000_0000_0000_0000, // 9F down to 90
        0xA => 0x0000_0000_0000_0000, // AF down to A0
        0xB => 0x0000_0000_0000_0000, // BF down to B0
        0xC => 0x8888_8888_8888_8800, // CF down to C0
        0xD => 0x8888_8888_8888_8888, // DF down to D0
        0xE => 0x3343_3333_3333_3332, // EF down to E0
        0xF => 0x0000_0000_0007_6665, // FF down to F0
        _ => 0,
    }
}

// The class of a lead byte: its digit of its row. A digit has four bits.
pub(crate) fn class_of(lead: u8) -> Class
    ensures { seen result ≡ class_of lead }
{
    let place = 4 * (lead % 16);
    class_numbered((row(lead / 16) >> place) % 16)
}
