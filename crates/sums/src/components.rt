// The components of a locus one after the other: their width, and the product of their sums.
ghost use Rattle.std.specs.Prelude.{◌≡◌, ℕ, ◌<◌, ◌↔◌, length, IsTrue, IsErr, IfOk, IfErr};
ghost use Rattle.figures.specs.Figure.{weights, figure as figure_of};
ghost use Rattle.figures.specs.Graph.{Wide, Sound, has};
ghost use Rattle.sums.specs.Gathering.{items};
ghost use Rattle.sums.specs.Searching.{pair_of};
ghost use Rattle.sums.specs.Seen.{seen, alleles_of, locus_at};
ghost use Rattle.sums.specs.Widths.{Figured, FiguredTwice, Carried, ExcessThroughMask, is_several, several_in, too_wide};

use crate::locus_figure::WideLocus;
use crate::order::Gathered;
use crate::priced::Priced;
use crate::site::Site;
use crate::slots::Held;
use algebra::Algebra;
use pedigree::SLOTS;
use readings::class::Class;
use readings::model::Model;

// A component with a reading of class several may have this many assignments.
const MOST: usize = 65_536;

// A locus has this many alleles at most. `study` says so of its panels, which nothing here stands on.
const ALLELES: usize = 16;

impl<M: Model> Site<'_, M> {
    // Whether a component has a reading of class several.
    fn has_several(&self, found: &Gathered) -> bool
        ensures { result ≡ several_in self.now.held.now (M.classes self.now.model.now self.now.locus) (items found.now) }
    {
        self.held.pairs().iter().enumerate().any(|(person, (slot, _))| {
            matches!(self.model.class(self.locus, person), Class::Several) && found.contains(*slot)
        })
    }

    // The locus with the costs of its alleles, where it is not wide.
    fn narrow<'b>(&'b self, costs: &'b [u16]) -> Result<Priced<'b, M>, WideLocus>
        ensures site { IfOk result (λ p. p.site.now ≡ self.now) }
        ensures costs { IfOk result (λ p. p.costs.now ≡ alleles_of costs.now) }
        ensures wide { IsErr result ↔ Wide (locus_at M.classes M.fitting self.now (length (alleles_of costs.now))) }
        ensures locus { IfErr result (λ e. e.locus ≡ self.now.locus) }
    {
        let priced = Priced {
            site: self,
            costs: &costs[..costs.len().min(ALLELES)],
        };
        if priced.is_wide() {
            return Err(WideLocus { locus: self.locus });
        }
        Ok(priced)
    }

    // The figure of the locus by an algebra: refused exactly where the locus is wide, and else the sum, over all assignments of alleles that fit the
    // readings, of the products of their weights. There is one cost for each allele; of more than 16 costs the first 16 count.
    pub fn figure<V: Algebra>(&self, costs: &[u16]) -> Result<V, WideLocus>
        ensures { Figured V.operations (weights V.operations (alleles_of costs.now)) (locus_at M.classes M.fitting self.now (length (alleles_of costs.now))) self.now.locus result }
    {
        Ok(self.narrow(costs)?.product())
    }

    // The figures of the locus by two algebras: refused as one figure is; every map that carries the first algebra to the second carries the first
    // figure to the second.
    pub fn two_figures<V: Algebra, W: Algebra>(&self, costs: &[u16]) -> Result<(V, W), WideLocus>
        ensures values { FiguredTwice V.operations W.operations (weights V.operations (alleles_of costs.now)) (weights W.operations (alleles_of costs.now)) (locus_at M.classes M.fitting self.now (length (alleles_of costs.now))) self.now.locus result }
        ensures carried { Carried V.operations W.operations result }
    {
        let priced = self.narrow(costs)?;
        Ok((priced.product(), priced.product()))
    }
}

impl<M: Model> Priced<'_, M> {
    // Whether a component is wide. A power that is too large for its type is above what is searched.
    fn is_too_wide(&self, found: &Gathered) -> bool
        ensures { result ≡ too_wide self.now.site.now.held.now (M.classes self.now.site.now.model.now self.now.site.now.locus) (length self.now.costs.now) (items found.now) }
    {
        // At most 64 slots are gathered, so the cast loses nothing; a conversion that may fail would want an answer for what cannot be.
        let assignments = self.costs.len().checked_pow(found.slots().len() as u32);
        self.site.has_several(found) && assignments.is_none_or(|number| number > MOST)
    }

    // Whether any component is wide. The slots are the numbers below their count; `product` walks them in the same way.
    fn is_wide(&self) -> bool
        ensures { IsTrue result ↔ Wide (locus_at M.classes M.fitting self.now.site.now (length self.now.costs.now)) }
    {
        let mut gathered = Gathered::new();
        let mut found = Gathered::new();
        for slot in 0..self.site.held.slots {
            if gathered.contains(slot) {
                continue;
            }
            self.site.gather(slot, &mut found);
            if self.is_too_wide(&found) {
                return true;
            }
            gathered.push_all(&found);
        }
        false
    }

    // The product of the sums of all components.
    fn product<V: Algebra>(&self) -> V
        ensures { result ≡ figure_of V.operations (weights V.operations self.now.costs.now) (locus_at M.classes M.fitting self.now.site.now (length self.now.costs.now)) }
    {
        let mut total = V::one();
        let mut gathered = Gathered::new();
        let mut found = Gathered::new();
        // The walk is that of is_wide, which ends at the first wide component and sums nothing. A walker of its own would promise at each step how the slots gathered
        // so far fall into components, which the two loops keep as they go.
        for slot in 0..self.site.held.slots {
            if gathered.contains(slot) {
                continue;
            }
            self.site.gather(slot, &mut found);
            let sum: V = self.search(found.slots(), [None; SLOTS]);
            total = total.product(sum);
            gathered.push_all(&found);
        }
        total
    }
}

// Through a mask a figure is the unmasked one with the excess of silencing added. The answer is 0, as the last clause promises.
pub fn masks_add_the_excess<V: Algebra>() -> u8
    ensures holds { ExcessThroughMask V.operations }
    ensures value { result ≡ 0 }
{
    0
}

// The locus that any model gives is one for which the theorems about components hold. The answer is 0, as the
// last clause promises.
pub fn models_give_sound_loci<M: Model>() -> u8
    ensures holds { (m : M) (h : Held) (k locus : ℕ) → Sound (seen h k (M.classes m locus) (M.fitting m locus)) }
    ensures value { result ≡ 0 }
{
    0
}
