// A locus: its kind, the costs of its alleles, and the numbers that may be read at it.
ghost use Rattle.std.specs.Prelude.{◌≡◌, ◌≤◌, true, false, if◌then◌else◌, length, take, Some, None, MatchOption};
ghost use Rattle.study.specs.Panels.{costs_low};

// A locus has 1 to so many alleles.
pub(crate) const ALLELES: usize = 16;

// The number of a person of whom nothing was read. The rules give it like any other number, and whoever enters a reading may pass it.
pub(crate) const NOTHING: u8 = 255;

// A dominant locus has the numbers below this one: allele 0 hides, or it shows.
const HIDES_OR_SHOWS: usize = 2;

// What is read at a locus: both alleles of a person, or whether allele 0 shows.
#[derive(Clone, Copy, PartialEq, Eq, Debug)]
pub enum Kind {
    Codominant,
    Dominant,
}

impl Kind {
    ghost use Rattle.study.specs.Readings.{kind_of};

    // The kind of a locus, where so many loci of its panel are codominant; they are the first.
    pub(crate) fn of(locus: usize, codominants: usize) -> Kind
        ensures { result ≡ kind_of codominants locus }
    {
        if locus < codominants {
            Kind::Codominant
        } else {
            Kind::Dominant
        }
    }
}

// The memory of a locus: its alleles are numbered from 0, and the first `alleles` entries are their costs.
// There is no heap below the programs and a locus is copied, so its costs stand in an array with their number beside it; `costs` lends the part in use.
#[derive(Clone, Copy)]
pub(crate) struct Locus {
    alleles: usize,
    costs: [u16; ALLELES],
    ghost some: { 1 ≤ alleles },
    ghost few: { alleles ≤ 16 },
    ghost memory: { length costs ≡ 16 },
    ghost low: { costs_low (take alleles costs) ≡ true },
}

impl Locus {
    ghost use Rattle.study.specs.Building.{listed};
    ghost use Rattle.study.specs.Readings.{genotypes, kind_has};

    // What stands in the memory of a panel where no locus was entered.
    pub(crate) const BLANK: Locus = Locus {
        alleles: 1,
        costs: [0; ALLELES],
    };

    // A locus with these costs, one for each allele, if none is above 65,535.
    pub(crate) fn of(costs: &[u32]) -> Option<Locus>
        requires some { 1 ≤ length costs.now }
        requires few { length costs.now ≤ 16 }
        ensures { MatchOption result (costs_low costs.now ≡ false) (λ locus. listed locus ≡ costs.now) }
    {
        let mut memory = [0; ALLELES];
        // Each cost goes to its own place, so the places are counted along.
        for (i, cost) in costs.iter().enumerate() {
            memory[i] = u16::try_from(*cost).ok()?;
        }
        Some(Locus {
            alleles: costs.len(),
            costs: memory,
        })
    }

    // The costs of its alleles, from allele 0 on.
    pub(crate) fn costs(&self) -> &[u16]
        ensures { result.now ≡ listed self.now }
    {
        &self.costs[..self.alleles]
    }

    // How many genotypes its alleles have.
    fn genotypes(&self) -> usize
        ensures value { result ≡ genotypes (length (listed self.now)) }
        ensures few { result ≤ 136 }
    {
        self.alleles * (self.alleles + 1) / 2
    }

    // The byte of a number, if the locus has it as one of this kind.
    pub(crate) fn byte_of(&self, kind: Kind, number: u32) -> Option<u8>
        ensures { result ≡ (if kind_has kind (length (listed self.now)) number then Some number else None) }
    {
        let numbers = match kind {
            Kind::Codominant => self.genotypes(),
            Kind::Dominant => HIDES_OR_SHOWS,
        };
        let byte = u8::try_from(number).ok()?;
        (byte == NOTHING || usize::from(byte) < numbers).then_some(byte)
    }
}
