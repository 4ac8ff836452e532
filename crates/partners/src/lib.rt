// The partners of letters: one table of all byte values for inverted records, and for either reading a
// table of all byte values or of the four letters.
#![tactic(auto)]

ghost use Rattle.std.specs.Prelude.{◌≡◌, get_or};
ghost use Rattle.partners.specs.Table.{PartnersIn, place_of, LetterPartners};

// The partner of each byte in an inverted record: A with T, C with G, and every other byte itself.
const PARTNERS: [u8; 256] = [
    0, 1, 2, 3, 4, 5, 6, 7, 8, 9, 10, 11, 12, 13, 14, 15, 16, 17, 18, 19, 20, 21, 22, 23, 24, 25,
    26, 27, 28, 29, 30, 31, 32, 33, 34, 35, 36, 37, 38, 39, 40, 41, 42, 43, 44, 45, 46, 47, 48, 49,
    50, 51, 52, 53, 54, 55, 56, 57, 58, 59, 60, 61, 62, 63, 64, 84, 66, 71, 68, 69, 70, 67, 72, 73,
    74, 75, 76, 77, 78, 79, 80, 81, 82, 83, 65, 85, 86, 87, 88, 89, 90, 91, 92, 93, 94, 95, 96, 97,
    98, 99, 100, 101, 102, 103, 104, 105, 106, 107, 108, 109, 110, 111, 112, 113, 114, 115, 116,
    117, 118, 119, 120, 121, 122, 123, 124, 125, 126, 127, 128, 129, 130, 131, 132, 133, 134, 135,
    136, 137, 138, 139, 140, 141, 142, 143, 144, 145, 146, 147, 148, 149, 150, 151, 152, 153, 154,
    155, 156, 157, 158, 159, 160, 161, 162, 163, 164, 165, 166, 167, 168, 169, 170, 171, 172, 173,
    174, 175, 176, 177, 178, 179, 180, 181, 182, 183, 184, 185, 186, 187, 188, 189, 190, 191, 192,
    193, 194, 195, 196, 197, 198, 199, 200, 201, 202, 203, 204, 205, 206, 207, 208, 209, 210, 211,
    212, 213, 214, 215, 216, 217, 218, 219, 220, 221, 222, 223, 224, 225, 226, 227, 228, 229, 230,
    231, 232, 233, 234, 235, 236, 237, 238, 239, 240, 241, 242, 243, 244, 245, 246, 247, 248, 249,
    250, 251, 252, 253, 254, 255,
];

// The partners of all bytes in a reading. Whoever adds, spells or compares letters makes the table once
// and lends it: the constant is copied to the stack where it is looked up at a place not known.
pub fn table(reading: usize) -> [u8; 256]
    ensures { PartnersIn reading result }
{
    let mut t = PARTNERS;
    if reading != 1 {
        t[65] = b'A';
        t[67] = b'C';
        t[71] = b'G';
        t[84] = b'T';
    }
    t
}

// The partner of a byte, by a table of partners.
pub fn partner_in(partners: &[u8; 256], c: u8) -> u8
    ensures { result ≡ get_or partners.now c 0 }
{
    partners[usize::from(c)]
}

// The partners of the four letters in a reading, each at its letter's place: for whoever reads the
// letters of a good store again and may not hold a table of all bytes. The constant is looked up at
// places that the compiler knows, and is not copied.
pub fn of_letters(reading: usize) -> [u8; 4]
    ensures { LetterPartners reading result }
{
    if reading == 1 {
        [PARTNERS[65], PARTNERS[67], PARTNERS[84], PARTNERS[71]]
    } else {
        [b'A', b'C', b'T', b'G']
    }
}

// The partner of a letter, by a table of the letters' partners. Two bits of a letter's byte tell the
// four apart.
pub fn of_letter(partners: &[u8; 4], c: u8) -> u8
    ensures { result ≡ get_or partners.now (place_of c) 0 }
{
    partners[usize::from(c / 2 % 4)]
}
