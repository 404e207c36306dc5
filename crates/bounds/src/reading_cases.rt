// Readings: the numbers that a locus has, one reading of a person at a locus, and the order in which a reading is refused.
use crate::family_cases::entered;
use crate::panel_cases::{plain, three};
use crate::told::print_refusal;
use pedigree::Family;
use refusal::Refusal;
use std::io;
use study::{Kind, PanelBuilder, ReadingsFault, Tables};

// A reading that is entered.
struct Case {
    name: &'static str,
    locus: usize,
    person: usize,
    number: u32,
}

// In a family of 4 persons, with 3 alleles at locus 0, 16 at locus 1 and a dominant locus 2; each behind those before it.
const SMALL: &[Case] = &[
    Case {
        name: "code 5 of 3 alleles",
        locus: 0,
        person: 0,
        number: 5,
    },
    Case {
        name: "code 6 of 3 alleles",
        locus: 0,
        person: 1,
        number: 6,
    },
    Case {
        name: "code 135 of 16 alleles",
        locus: 1,
        person: 0,
        number: 135,
    },
    Case {
        name: "code 136 of 16 alleles",
        locus: 1,
        person: 1,
        number: 136,
    },
    Case {
        name: "codominant 255",
        locus: 0,
        person: 1,
        number: 255,
    },
    Case {
        name: "codominant 254",
        locus: 0,
        person: 2,
        number: 254,
    },
    Case {
        name: "codominant 256",
        locus: 0,
        person: 2,
        number: 256,
    },
    Case {
        name: "a second reading",
        locus: 0,
        person: 0,
        number: 5,
    },
    Case {
        name: "a second reading after 255",
        locus: 0,
        person: 1,
        number: 1,
    },
    Case {
        name: "the same person at another locus",
        locus: 1,
        person: 1,
        number: 0,
    },
    Case {
        name: "dominant 0",
        locus: 2,
        person: 0,
        number: 0,
    },
    Case {
        name: "dominant 1",
        locus: 2,
        person: 1,
        number: 1,
    },
    Case {
        name: "dominant 2",
        locus: 2,
        person: 2,
        number: 2,
    },
    Case {
        name: "dominant 255",
        locus: 2,
        person: 2,
        number: 255,
    },
    Case {
        name: "dominant 256",
        locus: 2,
        person: 3,
        number: 256,
    },
    Case {
        name: "dominant 1 after 255",
        locus: 2,
        person: 2,
        number: 1,
    },
    Case {
        name: "a locus that the panel lacks",
        locus: 3,
        person: 0,
        number: 0,
    },
    Case {
        name: "a person that the family lacks",
        locus: 0,
        person: 4,
        number: 0,
    },
    Case {
        name: "no such locus, person or number",
        locus: 3,
        person: 4,
        number: 999,
    },
    Case {
        name: "no such person or number",
        locus: 2,
        person: 4,
        number: 999,
    },
    Case {
        name: "no such number, and a second reading",
        locus: 1,
        person: 0,
        number: 999,
    },
];

// In a family of 64 persons with 8 loci of one allele.
const LARGE: &[Case] = &[
    Case {
        name: "person 63 at locus 7",
        locus: 7,
        person: 63,
        number: 0,
    },
    Case {
        name: "person 63 at locus 7 again",
        locus: 7,
        person: 63,
        number: 0,
    },
    Case {
        name: "code 1 of one allele",
        locus: 7,
        person: 62,
        number: 1,
    },
    Case {
        name: "person 64",
        locus: 7,
        person: 64,
        number: 0,
    },
    Case {
        name: "locus 8",
        locus: 8,
        person: 63,
        number: 0,
    },
];

// A study: its family of so many founders and selfed children of the first, the readings that are entered, each behind those before it, and the places of
// the bytes that are told in the end.
struct Study {
    family_name: &'static str,
    founders: usize,
    children: usize,
    panel_name: &'static str,
    cases: &'static [Case],
    codominant_places: &'static [usize],
    dominant_places: &'static [usize],
}

const SMALL_STUDY: Study = Study {
    family_name: "a family of 4 persons",
    founders: 2,
    children: 2,
    panel_name: "a panel of 3 loci",
    cases: SMALL,
    codominant_places: &[0, 1, 64, 65, 66, 129],
    dominant_places: &[0, 1, 2, 129],
};

const LARGE_STUDY: Study = Study {
    family_name: "a family of 64 persons",
    founders: 1,
    children: 63,
    panel_name: "a panel of 8 loci",
    cases: LARGE,
    codominant_places: &[510, 511],
    dominant_places: &[],
};

fn family_of(study: &Study) -> Result<Family, Refusal> {
    Ok(entered(study.founders, study.children)?.close()?)
}

fn print_case(
    rt: &HostRuntime,
    tables: &mut Tables,
    panel: &PanelBuilder,
    family: &Family,
    case: &Case,
) -> io::Result<()> {
    let name = case.name;
    match tables.enter(panel, family, case.locus, case.person, case.number) {
        Ok(()) => println!(rt; "{name}: taken"),
        Err(fault) => print_refusal(rt, name, fault.into()),
    }
}

fn print_bytes(rt: &HostRuntime, kind: &str, table: &[u8], places: &[usize]) -> io::Result<()> {
    for place in places {
        match table.get(*place) {
            Some(byte) => println!(rt; "{kind} byte {place}: {byte}")?,
            None => println!(rt; "{kind} byte {place}: none")?,
        }
    }
    Ok(())
}

fn enter_all(
    rt: &HostRuntime,
    study: &Study,
    panel: &PanelBuilder,
    family: &Family,
) -> io::Result<()> {
    let mut tables = Tables::new();
    for case in study.cases {
        print_case(rt, &mut tables, panel, family, case)?;
    }
    print_bytes(
        rt,
        "codominant",
        tables.codominant(),
        study.codominant_places,
    )?;
    print_bytes(rt, "dominant", tables.dominant(), study.dominant_places)
}

fn run_study(
    rt: &HostRuntime,
    study: &Study,
    panel: Result<PanelBuilder, ReadingsFault>,
) -> io::Result<()> {
    match (panel, family_of(study)) {
        (Ok(panel), Ok(family)) => enter_all(rt, study, &panel, &family),
        (Ok(_), Err(refusal)) => print_refusal(rt, study.family_name, refusal),
        (Err(fault), _) => print_refusal(rt, study.panel_name, fault.into()),
    }
}

pub(crate) fn run(rt: &HostRuntime) -> io::Result<()> {
    run_study(rt, &SMALL_STUDY, three(Kind::Dominant))?;
    run_study(rt, &LARGE_STUDY, plain(8))
}
