// The figure of a small locus by its definition: every assignment is tried.
#![tactic(auto)]

ghost use Rattle.std.specs.Prelude.{◌≡◌, ◌-◌, ◌≤◌, length};
ghost use Rattle.arrayvec.specs.ArrayVec.{array_vec_len};
ghost use Rattle.pedigree.specs.Building.{persons_of};
ghost use Rattle.pedigree.specs.Slots.{SlotsBelow};
ghost use Rattle.figures.specs.Figure.{weights, product, fits_all};
ghost use Rattle.enumeration.specs.declared.TheConstants.{MOST_SLOTS, MOST_ALLELES};
ghost use Rattle.enumeration.specs.Answer.{answer, added, sum_after};

use algebra::Algebra;
use arrayvec::ArrayVec;
use pedigree::{Family, Meiosis, PERSONS};
use readings::model::Model;

// What is enumerated: at most this many slots and alleles.
const MOST_SLOTS: usize = 8;

const MOST_ALLELES: usize = 4;

// The locus figure of a family under the meiosis bits of that locus, with one cost for each allele. None where the family has more than 8 founder
// slots or the locus more than 4 alleles. It takes what the rules name, side by side, and uses nothing of the crate of the figure that it is a witness for.
pub fn figure_by_enumeration<V: Algebra, M: Model>(
    family: &Family,
    bits: &[Meiosis; PERSONS],
    model: &M,
    locus: usize,
    costs: &[u16],
) -> Option<V>
    ensures { result ≡ answer V.operations (persons_of family.now) bits.now (M.classes model.now locus) (M.fitting model.now locus) costs.now }
{
    let slots = family.slot_count();
    if slots > MOST_SLOTS || costs.len() > MOST_ALLELES {
        return None;
    }
    let held = family.all_slots(bits);
    let small = SmallLocus {
        model,
        locus,
        held: &held[..family.count()],
        costs,
        slots,
    };
    let mut alleles = ArrayVec::new();
    Some(small.sum_from(&mut alleles))
}

// A locus small enough to try every assignment: its number and the model that reads it, the two slots that each person holds, one cost for each
// allele, and how many slots there are.
#[derive(Drop)]
struct SmallLocus<'a, M> {
    model: &'a M,
    locus: usize,
    held: &'a [(usize, usize)],
    costs: &'a [u16],
    slots: usize,
    ghost few_slots: { slots ≤ MOST_SLOTS },
    ghost few_alleles: { length costs.now ≤ MOST_ALLELES },
    ghost held_below: { SlotsBelow slots held.now },
}

impl<M: Model> SmallLocus<'_, M> {
    ghost use Rattle.enumeration.specs.Small.{readings_in};

    // The sum over the assignments that begin with the alleles given.
    fn sum_from<V: Algebra>(&self, alleles: &mut ArrayVec<u8, MOST_SLOTS>) -> V
        requires { array_vec_len alleles.old ≤ self.now.slots }
        ensures value { result ≡ sum_after V.operations (weights V.operations self.now.costs.now) (readings_in M.classes M.fitting self.now) (length self.now.costs.now) (self.now.slots - array_vec_len alleles.old) alleles.old.items }
        ensures unchanged { alleles.new ≡ alleles.old }
    {
        if alleles.len() == self.slots {
            return self.term(alleles.as_slice());
        }
        let mut total = V::zero();
        // There are 4 alleles at most, so the cast loses nothing; a conversion that may fail would want an answer for what cannot be.
        for allele in 0..self.costs.len() as u8 {
            alleles.push(allele);
            total = total.sum(self.sum_from(alleles));
            alleles.pop();
        }
        total
    }

    // The product of an assignment, or zero where it breaks a reading.
    fn term<V: Algebra>(&self, alleles: &[u8]) -> V
        requires { length alleles.now ≡ self.now.slots }
        ensures { result ≡ added V.operations (weights V.operations self.now.costs.now) (readings_in M.classes M.fitting self.now) alleles.now }
    {
        if self.fits_readings(alleles) {
            self.product(alleles)
        } else {
            V::zero()
        }
    }

    // Whether an assignment fits the readings of all persons.
    fn fits_readings(&self, alleles: &[u8]) -> bool
        requires { length alleles.now ≡ self.now.slots }
        ensures { result ≡ fits_all (readings_in M.classes M.fitting self.now) alleles.now }
    {
        self.held.iter().enumerate().all(|(person, &(maternal, paternal))| {
            self.model
                .fits(self.locus, person, alleles[maternal], alleles[paternal])
        })
    }

    // The weights of the alleles of all slots multiplied.
    fn product<V: Algebra>(&self, alleles: &[u8]) -> V
        ensures { result ≡ product V.operations (weights V.operations self.now.costs.now) alleles.now }
    {
        alleles.iter().fold(
            V::one(),
            |product, allele| product.product(self.weight(*allele)),
        )
    }

    // The weight of an allele's cost, which is 0 where none is given.
    fn weight<V: Algebra>(&self, allele: u8) -> V
        ensures { result ≡ weights V.operations self.now.costs.now allele }
    {
        V::weight(self.costs.get(usize::from(allele)).copied().unwrap_or(0))
    }
}
