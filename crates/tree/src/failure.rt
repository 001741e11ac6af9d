// Why a call with a path is refused.
ghost use Rattle.tree.specs.Faults.{told_tree};

use fault::{Fault, Layer, Report};

// The step is the one at fault, counted from 1, or 0 where only the value is or the path has none: by docs/refusals.md that number is
// the place of the report.
#[derive(Clone, Copy, PartialEq, Eq, Debug)]
pub enum TreeFault {
    // A character that XML does not allow, in the namespace of a step or in the value.
    Forbidden { step: usize },
    // A name that no node may have, or a value that is no language tag.
    Unlawful { step: usize },
    // The tree would pass a limit.
    Limit,
    // The path is ill-formed, or leads nowhere.
    Nowhere { step: usize },
    // A step does not suit the node that it meets, or the value does not suit the node.
    Unsuited { step: usize },
    // A node stands where one is to be made.
    Occupied { step: usize },
}

impl Fault for TreeFault {
    ghost told = { told_tree };

    fn report(&self) -> Report {
        let (number, place) = match self {
            TreeFault::Forbidden { step } => (5, *step),
            TreeFault::Unlawful { step } => (8, *step),
            TreeFault::Limit => (11, 0),
            TreeFault::Nowhere { step } => (14, *step),
            TreeFault::Unsuited { step } => (15, *step),
            TreeFault::Occupied { step } => (16, *step),
        };
        Report {
            layer: Layer::Tree,
            number,
            place,
        }
    }
}
