// Persons of a family, the two sides of a child, and its two meiosis bits at a locus.
ghost use Rattle.std.specs.Prelude.{◌≡◌};
ghost use Rattle.pedigree.specs.Meioses.{bit_of, turned_at};

// A person is a founder, or a child of two persons of the family, told by their numbers.
#[derive(Clone, Copy, PartialEq, Eq, Debug)]
pub enum Person {
    Founder,
    Child { mother: usize, father: usize },
}

// A child's maternal side comes from its mother, its paternal side from its father.
#[derive(Clone, Copy, PartialEq, Eq, Debug)]
pub enum Side {
    Maternal,
    Paternal,
}

// The two meiosis bits of a child at a locus, one a side: false where the side holds that parent's maternal slot,
// true where it holds that parent's paternal slot. The rules name them bits, and a switch turns one.
#[derive(Clone, Copy, PartialEq, Eq, Debug)]
pub struct Meiosis {
    pub maternal: bool,
    pub paternal: bool,
}

impl Meiosis {
    // The bit of a side.
    pub fn bit(self, side: Side) -> bool
        ensures { result ≡ bit_of self side }
    {
        match side {
            Side::Maternal => self.maternal,
            Side::Paternal => self.paternal,
        }
    }

    // The bits with that of one side turned.
    pub fn turned(self, side: Side) -> Meiosis
        ensures value { result ≡ turned_at self side }
        ensures again { turned_at result side ≡ self }
    {
        match side {
            Side::Maternal => Meiosis {
                maternal: !self.maternal,
                ..self
            },
            Side::Paternal => Meiosis {
                paternal: !self.paternal,
                ..self
            },
        }
    }
}
