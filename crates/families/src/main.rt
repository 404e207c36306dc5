// Works out families whose figures are known by hand, and prints a line for each: its name, how many assignments of founder alleles fit its readings,
// the least cost, the best cost with its number, and the number of components.
#![tactic(auto)]

mod cases;
mod chains;
mod figures_line;
mod unanswered;

use algebra::Count;
use cases::{CASES, Case, Reader};
use chains::{CHAINS, Chain, bytes_of, chained};
use enumeration::figure_by_enumeration;
use figures_line::Figures;
use graph::parts;
use pedigree::{Family, FamilyBuilder, FamilyFault, Meiosis, PERSONS, Person, Side};
use readings::codominant::Codominant;
use readings::dominant::Dominant;
use readings::model::Model;
use readings::two_panels::TwoPanels;
use std::io;
use sums::{Held, Site, WideLocus};
use unanswered::Unanswered;

// What is read at a locus, and the costs of its alleles.
#[derive(Drop)]
struct Reading<'a> {
    reader: Reader,
    bytes: &'a [u8],
    costs: &'a [u16],
}

impl Reading<'_> {
    // The model of its one locus: the first panel's where it is codominant, else the second's.
    fn model(&self) -> TwoPanels<Codominant<'_>, Dominant<'_>> {
        TwoPanels {
            split: match self.reader {
                Reader::Codominant => 1,
                Reader::Dominant => 0,
            },
            first: Codominant { table: self.bytes },
            second: Dominant { table: self.bytes },
        }
    }
}

fn family_of(persons: &[Person]) -> Result<Family, FamilyFault> {
    let mut builder = FamilyBuilder::new();
    for person in persons {
        match *person {
            Person::Founder => builder.founder()?,
            Person::Child { mother, father } => builder.child(mother, father)?,
        };
    }
    builder.close()
}

fn bits_of(turned: Option<usize>) -> [Meiosis; PERSONS] {
    let straight = Meiosis {
        maternal: false,
        paternal: false,
    };
    let mut bits = [straight; PERSONS];
    if let Some(person) = turned
        && let Some(meiosis) = bits.get_mut(person)
    {
        *meiosis = meiosis.turned(Side::Paternal);
    }
    bits
}

fn figures_of<M: Model>(site: &Site<M>, costs: &[u16]) -> Result<Figures, WideLocus> {
    Ok(Figures {
        count: site.figure(costs)?,
        least: site.figure(costs)?,
        best: site.figure(costs)?,
        parts: parts(site),
    })
}

fn worked_out(
    family: Result<Family, FamilyFault>,
    turned: Option<usize>,
    reading: &Reading,
) -> Result<Figures, Unanswered> {
    let held = Held::of(&family?, &bits_of(turned));
    let model = reading.model();
    let site = Site {
        held: &held,
        model: &model,
        locus: 0,
    };
    Ok(figures_of(&site, reading.costs)?)
}

fn print_figures(
    rt: &HostRuntime,
    name: &str,
    figures: Result<Figures, Unanswered>,
) -> io::Result<()> {
    match figures {
        Ok(figures) => println!(rt; "{name}: {figures}"),
        Err(unanswered) => println!(rt; "{name}: {unanswered}"),
    }
}

impl Case {
    fn reading(&self) -> Reading<'_> {
        Reading {
            reader: self.reader,
            bytes: self.bytes,
            costs: self.costs,
        }
    }
}

fn print_case(rt: &HostRuntime, case: &Case) -> io::Result<()> {
    let figures = worked_out(family_of(case.persons), case.turned, &case.reading());
    print_figures(rt, case.name, figures)
}

fn print_chain(rt: &HostRuntime, chain: &Chain) -> io::Result<()> {
    let bytes = bytes_of(chain);
    let reading = Reading {
        reader: chain.reader,
        bytes: &bytes,
        costs: chain.costs,
    };
    print_figures(rt, chain.name, worked_out(chained(chain), None, &reading))
}

// The count of a case once more, by trying every assignment.
fn witness(case: &Case) -> Option<Count> {
    let family = family_of(case.persons).ok()?;
    let bits = bits_of(case.turned);
    figure_by_enumeration(&family, &bits, &case.reading().model(), 0, case.costs)
}

fn print_witnesses(rt: &HostRuntime) -> io::Result<()> {
    print!(rt; "counted one by one:")?;
    for case in CASES {
        match witness(case) {
            Some(count) => print!(rt; " {count}")?,
            None => print!(rt; " -")?,
        }
    }
    println!(rt; "")
}

fn main(rt: HostRuntime) -> io::Result<()> {
    for case in CASES {
        print_case(&rt, case)?;
    }
    print_witnesses(&rt)?;
    for chain in CHAINS {
        print_chain(&rt, chain)?;
    }
    Ok(())
}
