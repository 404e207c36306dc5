ghost use Rattle.std.specs.Prelude.{Some};
ghost use Rattle.readings.specs.Printed.{class_text};

use std::fmt;

// What a reading says of a person's two alleles at a locus: nothing, exactly which two they are (the smaller first), or
// only that they are among several pairs.
#[derive(Clone, Copy, PartialEq, Eq, Debug)]
pub enum Class {
    Silent,
    Named(u8, u8),
    Several,
}

impl fmt::Display for Class {
    ghost output = { λ class. Some (class_text class) };

    fn fmt<W: fmt::Write>(&self, f: &mut fmt::Formatter<W>) -> fmt::Result {
        match *self {
            Class::Silent => f.write_str("silent"),
            Class::Named(a, b) => write!(f, "named {a} {b}"),
            Class::Several => f.write_str("several"),
        }
    }
}
