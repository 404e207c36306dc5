// Genotype codes: one number for each unordered pair of alleles, in the genotype order of VCF files.
#![tactic(auto)]

ghost use Rattle.std.specs.Prelude.{◌≡◌, ◌<◌, ◌≤◌, min, max, Some, MatchOption};
ghost use Rattle.genotype.specs.Codes.{code_of, pair_of};

// The largest allele that has a code.
const LAST_ALLELE: u8 = 15;

// The largest code of a pair.
const LAST_CODE: u8 = 135;

// What stands for the code of an allele that has none.
const NO_CODE: u8 = 255;

// The code of the alleles a and b, in either order, at 16a + b.
const CODES: [u8; 256] = [
    // allele 0 with 0 to 15
    0, 1, 3, 6, 10, 15, 21, 28, 36, 45, 55, 66, 78, 91, 105, 120,
    // allele 1 with 0 to 15
    1, 2, 4, 7, 11, 16, 22, 29, 37, 46, 56, 67, 79, 92, 106, 121,
    // allele 2 with 0 to 15
    3, 4, 5, 8, 12, 17, 23, 30, 38, 47, 57, 68, 80, 93, 107, 122,
    // allele 3 with 0 to 15
    6, 7, 8, 9, 13, 18, 24, 31, 39, 48, 58, 69, 81, 94, 108, 123,
    // allele 4 with 0 to 15
    10, 11, 12, 13, 14, 19, 25, 32, 40, 49, 59, 70, 82, 95, 109, 124,
    // allele 5 with 0 to 15
    15, 16, 17, 18, 19, 20, 26, 33, 41, 50, 60, 71, 83, 96, 110, 125,
    // allele 6 with 0 to 15
    21, 22, 23, 24, 25, 26, 27, 34, 42, 51, 61, 72, 84, 97, 111, 126,
    // allele 7 with 0 to 15
    28, 29, 30, 31, 32, 33, 34, 35, 43, 52, 62, 73, 85, 98, 112, 127,
    // allele 8 with 0 to 15
    36, 37, 38, 39, 40, 41, 42, 43, 44, 53, 63, 74, 86, 99, 113, 128,
    // allele 9 with 0 to 15
    45, 46, 47, 48, 49, 50, 51, 52, 53, 54, 64, 75, 87, 100, 114, 129,
    // allele 10 with 0 to 15
    55, 56, 57, 58, 59, 60, 61, 62, 63, 64, 65, 76, 88, 101, 115, 130,
    // allele 11 with 0 to 15
    66, 67, 68, 69, 70, 71, 72, 73, 74, 75, 76, 77, 89, 102, 116, 131,
    // allele 12 with 0 to 15
    78, 79, 80, 81, 82, 83, 84, 85, 86, 87, 88, 89, 90, 103, 117, 132,
    // allele 13 with 0 to 15
    91, 92, 93, 94, 95, 96, 97, 98, 99, 100, 101, 102, 103, 104, 118, 133,
    // allele 14 with 0 to 15
    105, 106, 107, 108, 109, 110, 111, 112, 113, 114, 115, 116, 117, 118, 119, 134,
    // allele 15 with 0 to 15
    120, 121, 122, 123, 124, 125, 126, 127, 128, 129, 130, 131, 132, 133, 134, 135,
];

// The code of two alleles, in either order; 255 if one of them is above 15.
pub fn code(a: u8, b: u8) -> u8
    ensures value { result ≡ code_of a b }
    ensures back { a ≤ 15 → b ≤ 15 → (result ≤ 135) × (pair_of result ≡ Some (min a b, max a b)) }
{
    if a > LAST_ALLELE || b > LAST_ALLELE {
        // The rules give each two alleles a number: 255 where one of them is above 15.
        return NO_CODE;
    }
    CODES[16 * usize::from(a) + usize::from(b)]
}

// The pair of a code, the smaller allele first; none for a number that is no pair's code.
pub fn pair(code: u8) -> Option<(u8, u8)>
    ensures value { result ≡ pair_of code }
    ensures back { MatchOption result (135 < code) (λ p. (code ≤ 135) × (p.0 ≤ p.1) × (p.1 ≤ 15) × (code_of p.0 p.1 ≡ code)) }
{
    if code > LAST_CODE {
        return None;
    }
    let mut larger = 0;
    let mut smaller = code;
    // A `for` over the larger alleles is unrolled into a long chain of tests, which every question for a class would pay for.
    while smaller > larger {
        smaller -= larger + 1;
        larger += 1;
    }
    Some((smaller, larger))
}
