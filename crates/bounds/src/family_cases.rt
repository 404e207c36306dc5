// Families: 64 persons, 32 founders, parents before their children, at least one person.
use crate::told::print_answer;
use pedigree::{FamilyBuilder, FamilyFault, Person};
use refusal::Refusal;
use std::io;

// A person that is entered behind so many founders and so many selfed children of the first.
struct Case {
    name: &'static str,
    founders: usize,
    children: usize,
    person: Person,
}

const CASES: &[Case] = &[
    Case {
        name: "the 63rd person",
        founders: 1,
        children: 61,
        person: Person::Child {
            mother: 0,
            father: 0,
        },
    },
    Case {
        name: "the 64th person",
        founders: 1,
        children: 62,
        person: Person::Child {
            mother: 0,
            father: 0,
        },
    },
    Case {
        name: "a 65th person",
        founders: 1,
        children: 63,
        person: Person::Child {
            mother: 0,
            father: 0,
        },
    },
    Case {
        name: "a 65th person of parents it lacks",
        founders: 1,
        children: 63,
        person: Person::Child {
            mother: 64,
            father: 64,
        },
    },
    Case {
        name: "the 32nd founder",
        founders: 31,
        children: 0,
        person: Person::Founder,
    },
    Case {
        name: "a 33rd founder",
        founders: 32,
        children: 0,
        person: Person::Founder,
    },
    Case {
        name: "a 33rd founder as the 64th person",
        founders: 32,
        children: 31,
        person: Person::Founder,
    },
    Case {
        name: "a 33rd founder as a 65th person",
        founders: 32,
        children: 32,
        person: Person::Founder,
    },
    Case {
        name: "a child of the person before it",
        founders: 2,
        children: 0,
        person: Person::Child {
            mother: 1,
            father: 0,
        },
    },
    Case {
        name: "a child that is its own mother",
        founders: 2,
        children: 0,
        person: Person::Child {
            mother: 2,
            father: 0,
        },
    },
    Case {
        name: "a child that is its own father",
        founders: 2,
        children: 0,
        person: Person::Child {
            mother: 0,
            father: 2,
        },
    },
    Case {
        name: "a child as the first person",
        founders: 0,
        children: 0,
        person: Person::Child {
            mother: 0,
            father: 0,
        },
    },
];

pub(crate) fn entered(founders: usize, children: usize) -> Result<FamilyBuilder, FamilyFault> {
    let mut builder = FamilyBuilder::new();
    for _ in 0..founders {
        builder.founder()?;
    }
    for _ in 0..children {
        builder.child(0, 0)?;
    }
    Ok(builder)
}

fn answered(case: &Case) -> Result<usize, Refusal> {
    let mut builder = entered(case.founders, case.children)?;
    // Which call is made is data of the case, since the cases are a constant table.
    let number = match case.person {
        Person::Founder => builder.founder()?,
        Person::Child { mother, father } => builder.child(mother, father)?,
    };
    Ok(number)
}

fn closed_with(founders: usize) -> Result<usize, Refusal> {
    let family = entered(founders, 0)?.close()?;
    Ok(family.count())
}

pub(crate) fn run(rt: &HostRuntime) -> io::Result<()> {
    for case in CASES {
        print_answer(rt, case.name, answered(case))?;
    }
    print_answer(rt, "a family of nobody", closed_with(0))?;
    print_answer(rt, "a family of one person", closed_with(1))
}
