ghost use Rattle.std.specs.Prelude.{◌≡◌};
ghost use Rattle.readings.specs.Tables.{byte_at};

use crate::{LOCI, PERSONS};

// The byte of a person without one. The rules give it this number, which tables hold too, so that whoever asks gets a byte.
const NO_BYTE: u8 = 255;

// The byte of a person at a locus, in a table that holds one locus after the other.
pub(crate) fn byte_at(table: &[u8], locus: usize, person: usize) -> u8
    ensures { result ≡ byte_at table.now locus person }
{
    if locus >= LOCI || person >= PERSONS {
        return NO_BYTE;
    }
    table
        .get(PERSONS * locus + person)
        .copied()
        .unwrap_or(NO_BYTE)
}
