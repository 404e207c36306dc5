// Models over models: two panels at the locus where they meet and at the last, and a mask at the last person.
use pedigree::PERSONS;
use readings::codominant::Codominant;
use readings::dominant::Dominant;
use readings::mask::Mask;
use readings::model::Model;
use readings::two_panels::TwoPanels;
use std::io;

// A question to a model: the class of a person's reading at a locus, and whether two alleles of number 1 fit it.
struct Question<'a> {
    name: &'a str,
    locus: usize,
    person: usize,
}

const AT_TWO_PANELS: &[Question] = &[
    Question {
        name: "two panels, split at 2, locus 1",
        locus: 1,
        person: 0,
    },
    Question {
        name: "two panels, split at 2, locus 2",
        locus: 2,
        person: 0,
    },
    Question {
        name: "two panels, split at 2, locus 7",
        locus: 7,
        person: 63,
    },
    Question {
        name: "two panels, split at 2, locus 8",
        locus: 8,
        person: 0,
    },
    Question {
        name: "two panels, split at 2, person 64",
        locus: 1,
        person: 64,
    },
];

const AT_FIRST_ALONE: &[Question] = &[
    Question {
        name: "two panels, split at 9, locus 7",
        locus: 7,
        person: 0,
    },
    Question {
        name: "two panels, split at 9, locus 8",
        locus: 8,
        person: 0,
    },
];

const AT_SECOND_ALONE: &[Question] = &[
    Question {
        name: "two panels, split at 0, locus 0",
        locus: 0,
        person: 0,
    },
    Question {
        name: "two panels, split at 0, locus 6",
        locus: 6,
        person: 0,
    },
];

const AT_MASK: &[Question] = &[
    Question {
        name: "mask of 0 and 63, person 0",
        locus: 0,
        person: 0,
    },
    Question {
        name: "mask of 0 and 63, person 1",
        locus: 0,
        person: 1,
    },
    Question {
        name: "mask of 0 and 63, person 62",
        locus: 7,
        person: 62,
    },
    Question {
        name: "mask of 0 and 63, person 63",
        locus: 7,
        person: 63,
    },
    Question {
        name: "mask of 0 and 63, person 64",
        locus: 7,
        person: 64,
    },
    Question {
        name: "mask of 0 and 63, locus 8",
        locus: 8,
        person: 1,
    },
];

// Everybody reads the alleles 0 and 1.
const HETEROZYGOUS: [u8; 512] = [1; 512];

// Everybody shows allele 0 at six loci.
const SHOWS: [u8; 384] = [1; 384];

// What a model says of two alleles, in a word: a `bool` prints others.
fn fit_name(fits: bool) -> &'static str {
    if fits { "fit" } else { "break" }
}

fn ask<M: Model>(rt: &HostRuntime, model: &M, questions: &[Question<'_>]) -> io::Result<()> {
    for question in questions {
        let class = model.class(question.locus, question.person);
        let fits = fit_name(model.fits(question.locus, question.person, 1, 1));
        println!(rt; "{}: {class}, 1 1 {fits}", question.name)?;
    }
    Ok(())
}

fn ask_panels(rt: &HostRuntime, split: usize, questions: &[Question<'_>]) -> io::Result<()> {
    let model = TwoPanels {
        split,
        first: Codominant {
            table: &HETEROZYGOUS,
        },
        second: Dominant { table: &SHOWS },
    };
    ask(rt, &model, questions)
}

fn ask_mask(rt: &HostRuntime) -> io::Result<()> {
    let mut silenced = [false; PERSONS];
    silenced[0] = true;
    silenced[63] = true;
    let model = Mask {
        below: Codominant {
            table: &HETEROZYGOUS,
        },
        silenced,
    };
    ask(rt, &model, AT_MASK)
}

pub(crate) fn run(rt: &HostRuntime) -> io::Result<()> {
    ask_panels(rt, 2, AT_TWO_PANELS)?;
    ask_panels(rt, 9, AT_FIRST_ALONE)?;
    ask_panels(rt, 0, AT_SECOND_ALONE)?;
    ask_mask(rt)
}
