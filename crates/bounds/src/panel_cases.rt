// Panels: 1 to 8 loci, 1 to 16 alleles, as many costs as alleles, costs up to 65,535; codominant loci before dominant ones.
use crate::told::{print_answer, print_number};
use refusal::Refusal;
use std::io;
use study::{Kind, Panel, PanelBuilder, ReadingsFault};

// A locus entered behind so many others.
struct Case {
    name: &'static str,
    before: usize,
    alleles: usize,
    costs: &'static [u32],
}

const CASES: &[Case] = &[
    Case {
        name: "the 7th locus",
        before: 6,
        alleles: 1,
        costs: &[0],
    },
    Case {
        name: "the 8th locus",
        before: 7,
        alleles: 1,
        costs: &[0],
    },
    Case {
        name: "a 9th locus",
        before: 8,
        alleles: 1,
        costs: &[0],
    },
    Case {
        name: "no allele",
        before: 2,
        alleles: 0,
        costs: &[],
    },
    Case {
        name: "1 allele",
        before: 2,
        alleles: 1,
        costs: &[9],
    },
    Case {
        name: "16 alleles",
        before: 2,
        alleles: 16,
        costs: &[0, 1, 2, 3, 4, 5, 6, 7, 8, 9, 10, 11, 12, 13, 14, 15],
    },
    Case {
        name: "17 alleles",
        before: 2,
        alleles: 17,
        costs: &[0, 1, 2, 3, 4, 5, 6, 7, 8, 9, 10, 11, 12, 13, 14, 15, 16],
    },
    Case {
        name: "3 alleles with 2 costs",
        before: 3,
        alleles: 3,
        costs: &[5, 1],
    },
    Case {
        name: "3 alleles with 3 costs",
        before: 3,
        alleles: 3,
        costs: &[5, 1, 2],
    },
    Case {
        name: "3 alleles with 4 costs",
        before: 3,
        alleles: 3,
        costs: &[5, 1, 2, 4],
    },
    Case {
        name: "a cost of 65535",
        before: 4,
        alleles: 2,
        costs: &[0, 65535],
    },
    Case {
        name: "a cost of 65536",
        before: 4,
        alleles: 2,
        costs: &[0, 65536],
    },
];

// A panel of so many loci with one allele each.
pub(crate) fn plain(loci: usize) -> Result<PanelBuilder, ReadingsFault> {
    let mut builder = PanelBuilder::new();
    for _ in 0..loci {
        builder.locus(1, &[0])?;
    }
    Ok(builder)
}

fn answered(case: &Case) -> Result<usize, Refusal> {
    let mut builder = plain(case.before)?;
    Ok(builder.locus(case.alleles, case.costs)?)
}

fn closed_with(loci: usize) -> Result<usize, Refusal> {
    let panel = plain(loci)?.close()?;
    Ok(panel.count())
}

// How many loci there are after a ninth was refused.
fn after_a_ninth() -> Result<usize, Refusal> {
    let mut builder = plain(8)?;
    let _ninth = builder.locus(1, &[0]);
    Ok(builder.count())
}

// A panel of three loci. Before and behind a dominant one dominant loci begin.
pub(crate) fn three(last: Kind) -> Result<PanelBuilder, ReadingsFault> {
    let mut builder = PanelBuilder::new();
    builder.locus(3, &[5, 1, 2])?;
    builder.locus(
        16,
        &[0, 1, 2, 3, 4, 5, 6, 7, 8, 9, 10, 11, 12, 13, 14, 65535],
    )?;
    if last == Kind::Dominant {
        builder.begin_dominant();
    }
    builder.locus(2, &[3, 1])?;
    if last == Kind::Dominant {
        builder.begin_dominant();
    }
    Ok(builder)
}

fn closed_three(last: Kind) -> Result<Panel, Refusal> {
    Ok(three(last)?.close()?)
}

fn codominants(last: Kind) -> Result<usize, Refusal> {
    Ok(closed_three(last)?.codominants())
}

// The last cost of a locus.
fn last_cost(panel: &Panel, locus: usize) -> Option<usize> {
    panel.costs(locus)?.last().map(|cost| usize::from(*cost))
}

fn print_loci(rt: &HostRuntime, panel: &Panel) -> io::Result<()> {
    print_number(rt, "alleles of locus 1", panel.alleles(1))?;
    print_number(rt, "last cost of locus 1", last_cost(panel, 1))?;
    print_number(rt, "alleles of locus 2", panel.alleles(2))?;
    print_number(rt, "last cost of locus 2", last_cost(panel, 2))?;
    print_number(rt, "alleles of locus 3 of three", panel.alleles(3))?;
    print_number(rt, "last cost of locus 3 of three", last_cost(panel, 3))
}

pub(crate) fn run(rt: &HostRuntime) -> io::Result<()> {
    for case in CASES {
        print_answer(rt, case.name, answered(case))?;
    }
    print_answer(rt, "loci after a refused 9th", after_a_ninth())?;
    print_answer(rt, "a panel without a locus", closed_with(0))?;
    print_answer(rt, "a panel of one locus", closed_with(1))?;
    print_answer(rt, "a panel of eight loci", closed_with(8))?;
    print_answer(
        rt,
        "codominant loci where none is dominant",
        codominants(Kind::Codominant),
    )?;
    print_answer(
        rt,
        "codominant loci where dominant ones begin at locus 2",
        codominants(Kind::Dominant),
    )?;
    match closed_three(Kind::Dominant) {
        Ok(panel) => print_loci(rt, &panel),
        Err(refusal) => print_answer(rt, "three loci", Err(refusal)),
    }
}
