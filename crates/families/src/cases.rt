// The families, each with its meiosis bits, its readings at one locus and the costs of the alleles.
use pedigree::Person;

// How the bytes of the one locus are read. The program stands on no panel, which would tell the kind of a locus.
#[derive(Clone, Copy, PartialEq, Eq, Debug)]
pub enum Reader {
    Codominant,
    Dominant,
}

// One family. All meiosis bits are 0 but the paternal one of the person that is turned.
pub struct Case {
    pub name: &'static str,
    pub persons: &'static [Person],
    pub turned: Option<usize>,
    pub reader: Reader,
    pub bytes: &'static [u8],
    pub costs: &'static [u16],
}

// Two founders and their two children.
const SIBLINGS: &[Person] = &[
    Person::Founder,
    Person::Founder,
    Person::Child {
        mother: 0,
        father: 1,
    },
    Person::Child {
        mother: 0,
        father: 1,
    },
];

// A founder and its selfed child.
const SELFED: &[Person] = &[
    Person::Founder,
    Person::Child {
        mother: 0,
        father: 0,
    },
];

pub const THREE: &[u16] = &[5, 1, 2];

pub const CASES: &[Case] = &[
    Case {
        name: "siblings, nobody read",
        persons: SIBLINGS,
        turned: None,
        reader: Reader::Codominant,
        bytes: &[],
        costs: THREE,
    },
    Case {
        name: "siblings, person 2 reads 1 1",
        persons: SIBLINGS,
        turned: None,
        reader: Reader::Codominant,
        bytes: &[255, 255, 2],
        costs: THREE,
    },
    Case {
        name: "siblings, person 2 reads 0 1",
        persons: SIBLINGS,
        turned: None,
        reader: Reader::Codominant,
        bytes: &[255, 255, 1],
        costs: THREE,
    },
    Case {
        name: "siblings, persons 2 and 3 read 0 1 and 0 2",
        persons: SIBLINGS,
        turned: None,
        reader: Reader::Codominant,
        bytes: &[255, 255, 1, 3],
        costs: THREE,
    },
    Case {
        name: "the same, paternal bit of person 3 turned",
        persons: SIBLINGS,
        turned: Some(3),
        reader: Reader::Codominant,
        bytes: &[255, 255, 1, 3],
        costs: THREE,
    },
    Case {
        name: "selfed child reads 0 1",
        persons: SELFED,
        turned: None,
        reader: Reader::Codominant,
        bytes: &[255, 1],
        costs: THREE,
    },
    Case {
        name: "the same, paternal bit of the child turned",
        persons: SELFED,
        turned: Some(1),
        reader: Reader::Codominant,
        bytes: &[255, 1],
        costs: THREE,
    },
    Case {
        name: "one founder shows allele 0 of two",
        persons: &[Person::Founder],
        turned: None,
        reader: Reader::Dominant,
        bytes: &[1],
        costs: &[3, 1],
    },
];
