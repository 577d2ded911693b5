// The two tables of packing, each with its rule. Inner: not a public call.
ghost use Rattle.std.specs.Prelude.{◌≡◌, ◌<◌};
ghost use Rattle.packing.specs.Packing.{table_number, Ruled, powers};

// The table of 256 numbers. A caller makes it once and lends it for each byte: a constant is made anew at each use.
pub fn table() -> [u16; 256]
    ensures { Ruled result }
{
    POSITIONS
}

// What the table has of a byte.
pub fn positions(table: &[u16; 256], b: u8) -> u16
    requires { Ruled table.now }
    ensures { result ≡ table_number b }
{
    table[b as usize]
}

// The sum of 1, 3, 9, 27, 81 at the bits of a word of five bits.
pub fn powers(w: u32) -> u8
    requires { w < 32 }
    ensures { result ≡ powers 5 w }
{
    POWERS[w as usize]
}

// What is in the table at a byte that no five positions have. A number and no Option, which would double the table.
pub const NONE: u16 = 1024;

// Of each byte the care word of its five positions and 32 times their value word; of 243 to 255 none.
const POSITIONS: [u16; 256] = [
    31, 63, 30, 95, 127, 94, 29, 61, 28, 159, 191, 158, 223, 255, 222, 157, 189, 156, 27, 59, 26,
    91, 123, 90, 25, 57, 24, 287, 319, 286, 351, 383, 350, 285, 317, 284, 415, 447, 414, 479, 511,
    478, 413, 445, 412, 283, 315, 282, 347, 379, 346, 281, 313, 280, 23, 55, 22, 87, 119, 86, 21,
    53, 20, 151, 183, 150, 215, 247, 214, 149, 181, 148, 19, 51, 18, 83, 115, 82, 17, 49, 16, 543,
    575, 542, 607, 639, 606, 541, 573, 540, 671, 703, 670, 735, 767, 734, 669, 701, 668, 539, 571,
    538, 603, 635, 602, 537, 569, 536, 799, 831, 798, 863, 895, 862, 797, 829, 796, 927, 959, 926,
    991, 1023, 990, 925, 957, 924, 795, 827, 794, 859, 891, 858, 793, 825, 792, 535, 567, 534, 599,
    631, 598, 533, 565, 532, 663, 695, 662, 727, 759, 726, 661, 693, 660, 531, 563, 530, 595, 627,
    594, 529, 561, 528, 15, 47, 14, 79, 111, 78, 13, 45, 12, 143, 175, 142, 207, 239, 206, 141,
    173, 140, 11, 43, 10, 75, 107, 74, 9, 41, 8, 271, 303, 270, 335, 367, 334, 269, 301, 268, 399,
    431, 398, 463, 495, 462, 397, 429, 396, 267, 299, 266, 331, 363, 330, 265, 297, 264, 7, 39, 6,
    71, 103, 70, 5, 37, 4, 135, 167, 134, 199, 231, 198, 133, 165, 132, 3, 35, 2, 67, 99, 66, 1,
    33, 0, 1024, 1024, 1024, 1024, 1024, 1024, 1024, 1024, 1024, 1024, 1024, 1024, 1024,
];

// Of each word of five bits the sum of 1, 3, 9, 27, 81 at its bits.
const POWERS: [u8; 32] = [
    0, 1, 3, 4, 9, 10, 12, 13, 27, 28, 30, 31, 36, 37, 39, 40, 81, 82, 84, 85, 90, 91, 93, 94, 108,
    109, 111, 112, 117, 118, 120, 121,
];
