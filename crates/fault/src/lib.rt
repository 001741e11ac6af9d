// What is told of a refusal.
//
// Every call of the engine answers or refuses, and a refusal is always told in the same three words: the layer that found the
// fault, the refusal's number and the place. docs/refusals.md lists all sixteen. Each layer has a fault type of its own, which
// carries the fault of the layer below it whole, so that the report of a fault is the same however far up it has travelled.
#![tactic(auto)]

ghost use Rattle.std.specs.Prelude.{◌≡◌, Some};
ghost use Rattle.fault.specs.Text.{text_of_report, word_of};
ghost use Rattle.fault.specs.declared.Report.{Report};

use std::fmt;

// The layers, from the bottom up.
#[derive(Clone, Copy, PartialEq, Eq, Debug)]
pub enum Layer {
    Medium,
    Code,
    Packet,
    Markup,
    Model,
    Tree,
}

// The layer's word.
impl fmt::Display for Layer {
    ghost output = { λ layer. Some (word_of layer) };

    fn fmt<W: fmt::Write>(&self, f: &mut fmt::Formatter<W>) -> fmt::Result {
        f.pad(match self {
            Layer::Medium => "medium",
            Layer::Code => "code",
            Layer::Packet => "packet",
            Layer::Markup => "markup",
            Layer::Model => "model",
            Layer::Tree => "tree",
        })
    }
}

// A refusal as it is told: who found the fault, which refusal it is, and where.
#[derive(Clone, Copy, PartialEq, Eq, Debug)]
pub struct Report {
    pub layer: Layer,
    // A number and no enum: it is what is read outside, and a narrower type would ask more of whoever has a report printed.
    pub number: u8,
    pub place: usize,
}

// Layer, number and place, with a space between them.
impl fmt::Display for Report {
    ghost output = { λ report. Some (text_of_report report) };

    fn fmt<W: fmt::Write>(&self, f: &mut fmt::Formatter<W>) -> fmt::Result {
        write!(f, "{} {} {}", self.layer, self.number, self.place)
    }
}

// The fault of some layer. What it reports is fixed by a definition, case by case.
pub trait Fault {
    ghost told: { Self → Report };

    fn report(&self) -> Report
        ensures { result ≡ told self.now };
}
