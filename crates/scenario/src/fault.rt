//! What may be wrong with a scenario.
ghost use Rattle.std.specs.Prelude.{◌≡◌};
ghost use Rattle.scenario.specs.Faults.{spelling, file_spelling, told};

use protocol::refusal::Refusal;
use records::fault::{Place, TextFault};

/// What is wrong with a layout.
#[derive(Clone, Copy, PartialEq, Eq, Debug)]
pub enum LayoutFault {
    /// The table has other than 256 entries.
    BadTable,
    /// The reference to be placed is above 255, or was placed before.
    Taken(Place),
    /// The reference of a step is not placed.
    Unplaced(Place),
}

/// What is wrong with a scenario: with its text, its layout, or the study that it asks for.
#[derive(Clone, Copy, PartialEq, Eq, Debug)]
pub enum Fault {
    Text(TextFault),
    Layout(LayoutFault),
    Study(Refusal),
}

impl From<TextFault> for Fault {
    ghost use Rattle.scenario.specs.declared.fault.Fault.TheVariants.{Text};

    ghost from_gives = { λ e f. f ≡ Text e };

    fn from(fault: TextFault) -> Fault {
        Fault::Text(fault)
    }
}

impl From<LayoutFault> for Fault {
    ghost use Rattle.scenario.specs.declared.fault.Fault.TheVariants.{Layout};

    ghost from_gives = { λ e f. f ≡ Layout e };

    fn from(fault: LayoutFault) -> Fault {
        Fault::Layout(fault)
    }
}

impl From<Refusal> for Fault {
    ghost use Rattle.scenario.specs.declared.fault.Fault.TheVariants.{Study};

    ghost from_gives = { λ e f. f ≡ Study e };

    fn from(refusal: Refusal) -> Fault {
        Fault::Study(refusal)
    }
}

/// The two texts of a single study.
#[derive(Clone, Copy, PartialEq, Eq, Debug)]
pub enum File {
    Placement,
    Schedule,
}

/// A fault of one of two texts.
#[derive(Clone, Copy, PartialEq, Eq, Debug)]
pub struct FileFault {
    pub file: File,
    pub fault: Fault,
}

impl File {
    /// The text as a report spells it.
    pub fn bytes(self) -> &'static [u8]
        ensures { result.now ≡ file_spelling self }
    {
        match self {
            File::Placement => b"placement",
            File::Schedule => b"schedule",
        }
    }
}

/// Where a fault comes from.
#[derive(Clone, Copy)]
pub enum Layer {
    Text,
    Layout,
    Study,
}

impl Layer {
    /// The layer as a report spells it.
    pub fn bytes(self) -> &'static [u8]
        ensures { result.now ≡ spelling self }
    {
        match self {
            Layer::Text => b"text",
            Layer::Layout => b"layout",
            Layer::Study => b"study",
        }
    }
}

/// A fault, as a report tells it. Line and field count from 1; 0 stands for none.
#[derive(Clone, Copy)]
pub struct Told {
    pub layer: Layer,
    pub line: u32,
    pub field: u32,
    pub number: u8,
}

fn tell(layer: Layer, line: u32, field: u32, number: u8) -> Told
    ensures { result ≡ told layer line field number }
{
    Told {
        layer,
        line,
        field,
        number,
    }
}

/// How a report tells a fault.
impl From<Fault> for Told {
    ghost use Rattle.scenario.specs.Faults.{told_of};

    ghost from_gives = { λ f t. t ≡ told_of f };

    fn from(fault: Fault) -> Told {
        match fault {
            Fault::Text(TextFault::TooLong) => tell(Layer::Text, 0, 0, 15),
            Fault::Text(TextFault::Unended { line }) => tell(Layer::Text, line, 0, 16),
            Fault::Text(TextFault::Misplaced { line }) => tell(Layer::Text, line, 1, 17),
            Fault::Text(TextFault::Miscounted { line }) => tell(Layer::Text, line, 0, 18),
            Fault::Text(TextFault::NotANumber(at)) => tell(Layer::Text, at.line, at.field, 19),
            Fault::Layout(LayoutFault::BadTable) => tell(Layer::Layout, 0, 0, 14),
            Fault::Layout(LayoutFault::Taken(at)) => tell(Layer::Layout, at.line, at.field, 20),
            Fault::Layout(LayoutFault::Unplaced(at)) => tell(Layer::Layout, at.line, at.field, 21),
            Fault::Study(refusal) => tell(Layer::Study, 1, 0, u8::from(refusal)),
        }
    }
}
