// Families of founders in a row, and of children each of two neighbours in it.
use crate::cases::{Reader, THREE};
use pedigree::{Family, FamilyBuilder, FamilyFault, PERSONS};

// A row of founders and its children, with the byte that is read of the first founders and of every child.
pub struct Chain {
    pub name: &'static str,
    pub founders: usize,
    pub founders_read: usize,
    pub children: usize,
    pub reader: Reader,
    pub byte: u8,
    pub costs: &'static [u16],
}

const SIXTEEN: &[u16] = &[0, 1, 2, 3, 4, 5, 6, 7, 8, 9, 10, 11, 12, 13, 14, 15];

const TWO: &[u16] = &[3, 1];

pub const CHAINS: &[Chain] = &[
    Chain {
        name: "three founders unread, 16 alleles",
        founders: 3,
        founders_read: 0,
        children: 0,
        reader: Reader::Codominant,
        byte: 255,
        costs: SIXTEEN,
    },
    Chain {
        name: "four founders unread, 16 alleles",
        founders: 4,
        founders_read: 0,
        children: 0,
        reader: Reader::Codominant,
        byte: 255,
        costs: SIXTEEN,
    },
    Chain {
        name: "16 slots in one component, all show allele 0 of two",
        founders: 8,
        founders_read: 8,
        children: 7,
        reader: Reader::Dominant,
        byte: 1,
        costs: TWO,
    },
    Chain {
        name: "17 slots in one component, all show allele 0 of two",
        founders: 9,
        founders_read: 8,
        children: 8,
        reader: Reader::Dominant,
        byte: 1,
        costs: TWO,
    },
    Chain {
        name: "16 slots in one component, all read 0 1",
        founders: 8,
        founders_read: 8,
        children: 8,
        reader: Reader::Codominant,
        byte: 1,
        costs: THREE,
    },
    Chain {
        name: "32 slots in one component, all read 0 1",
        founders: 16,
        founders_read: 16,
        children: 16,
        reader: Reader::Codominant,
        byte: 1,
        costs: THREE,
    },
    Chain {
        name: "64 slots in one component, all read 0 1",
        founders: 32,
        founders_read: 32,
        children: 32,
        reader: Reader::Codominant,
        byte: 1,
        costs: THREE,
    },
];

// The family: past the last two founders the children begin again at the first two.
pub(crate) fn chained(chain: &Chain) -> Result<Family, FamilyFault> {
    let mut builder = FamilyBuilder::new();
    for _ in 0..chain.founders {
        builder.founder()?;
    }
    let neighbours = (0..chain.founders).zip(1..chain.founders);
    for (mother, father) in neighbours.cycle().take(chain.children) {
        builder.child(mother, father)?;
    }
    builder.close()
}

// The bytes of its persons.
pub(crate) fn bytes_of(chain: &Chain) -> [u8; PERSONS] {
    let mut bytes = [255; PERSONS];
    for (person, byte) in bytes.iter_mut().enumerate() {
        if person < chain.founders_read || person >= chain.founders {
            *byte = chain.byte;
        }
    }
    bytes
}
