// What every refusal tells, whichever layer refuses.
#![tactic(auto)]

ghost use Rattle.std.specs.Prelude.{Some};
ghost use Rattle.refusal.specs.Printed.{layer_name, refusal_text};

use std::fmt;

// The layer that refuses a call.
#[derive(Clone, Copy, PartialEq, Eq, Debug)]
pub enum Layer {
    Family,
    Readings,
    Desk,
    Text,
}

// A refusal: its number, the place that it is about, and the layer that refuses.
#[derive(Clone, Copy, PartialEq, Eq, Debug)]
pub struct Refusal {
    // The published number of the case. The cases themselves are the faults of each layer, an enum that is converted into a refusal.
    pub number: u8,
    pub place: usize,
    pub layer: Layer,
}

impl fmt::Display for Layer {
    ghost output = { λ layer. Some (layer_name layer) };

    fn fmt<W: fmt::Write>(&self, f: &mut fmt::Formatter<W>) -> fmt::Result {
        f.write_str(match self {
            Layer::Family => "family",
            Layer::Readings => "readings",
            Layer::Desk => "desk",
            Layer::Text => "text",
        })
    }
}

// The number, the place and the layer.
impl fmt::Display for Refusal {
    ghost output = { λ refusal. Some (refusal_text refusal) };

    fn fmt<W: fmt::Write>(&self, f: &mut fmt::Formatter<W>) -> fmt::Result {
        write!(f, "{} {} {}", self.number, self.place, self.layer)
    }
}
