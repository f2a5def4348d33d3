// Why a list is refused. Each upper fault holds the lower one whole.
ghost use Rattle.std.specs.Prelude.{◌≡◌, Some};
ghost use Rattle.blocks.specs.declared.faults.ListFault.TheVariants.{Block as HeldBlock};
ghost use Rattle.blocks.specs.declared.faults.ProgramFault.TheVariants.{List as HeldList};
ghost use Rattle.blocks.specs.Faults.{block_refusal, list_refusal, program_refusal, line, place_text, layer_text};

use std::fmt;

// The part of the program that refuses.
#[derive(Clone, Copy, Debug, PartialEq, Eq)]
pub enum Layer {
    Block,
    List,
    Program,
}

// A block is refused for its check, its place, its record count or its unused bytes.
#[derive(Clone, Copy, Debug, PartialEq, Eq)]
pub enum BlockFault {
    Check { block: usize },
    Place { block: usize },
    Count { block: usize },
    Unused { block: usize },
}

// A list is refused for its length, another size than block 0 has, a pair, the order of pairs, points, or a block.
#[derive(Clone, Copy, Debug, PartialEq, Eq)]
pub enum ListFault {
    Length,
    Size { block: usize },
    Pair { block: usize, record: usize },
    Order { block: usize, record: usize },
    Points { block: usize, record: usize },
    Block(BlockFault),
}

// The program refuses an input that is too long, or its list.
#[derive(Clone, Copy, Debug, PartialEq, Eq)]
pub enum ProgramFault {
    Long,
    List(ListFault),
}

// What a fault names. A place that it does not name is absent.
#[derive(Clone, Copy, Debug, PartialEq, Eq)]
pub struct Refusal {
    pub number: u16,
    pub layer: Layer,
    pub block: Option<usize>,
    pub record: Option<usize>,
}

impl From<BlockFault> for ListFault {
    ghost from_gives = { λ e r. r ≡ HeldBlock e };

    fn from(fault: BlockFault) -> Self {
        Self::Block(fault)
    }
}

impl From<ListFault> for ProgramFault {
    ghost from_gives = { λ e r. r ≡ HeldList e };

    fn from(fault: ListFault) -> Self {
        Self::List(fault)
    }
}

impl BlockFault {
    pub fn refusal(self) -> Refusal
        ensures { result ≡ block_refusal self }
    {
        let (number, block) = match self {
            BlockFault::Check { block } => (12, block),
            BlockFault::Place { block } => (13, block),
            BlockFault::Count { block } => (15, block),
            BlockFault::Unused { block } => (16, block),
        };
        Refusal {
            number,
            layer: Layer::Block,
            block: Some(block),
            record: None,
        }
    }
}

impl ListFault {
    pub fn refusal(self) -> Refusal
        ensures { result ≡ list_refusal self }
    {
        let (number, block, record) = match self {
            ListFault::Length => (11, None, None),
            ListFault::Size { block } => (14, Some(block), None),
            ListFault::Pair { block, record } => (17, Some(block), Some(record)),
            ListFault::Order { block, record } => (18, Some(block), Some(record)),
            ListFault::Points { block, record } => (19, Some(block), Some(record)),
            ListFault::Block(fault) => return fault.refusal(),
        };
        Refusal {
            number,
            layer: Layer::List,
            block,
            record,
        }
    }
}

impl ProgramFault {
    pub fn refusal(self) -> Refusal
        ensures { result ≡ program_refusal self }
    {
        match self {
            ProgramFault::Long => Refusal {
                number: 10,
                layer: Layer::Program,
                block: None,
                record: None,
            },
            ProgramFault::List(fault) => fault.refusal(),
        }
    }
}

impl fmt::Display for Layer {
    ghost output = { λ layer. Some (layer_text layer) };

    fn fmt<W: fmt::Write>(&self, f: &mut fmt::Formatter<W>) -> fmt::Result {
        match self {
            Layer::Block => write!(f, "block"),
            Layer::List => write!(f, "list"),
            Layer::Program => write!(f, "program"),
        }
    }
}

// A place as it is printed.
#[derive(Clone, Copy)]
struct Shown(Option<usize>);

impl fmt::Display for Shown {
    ghost output = { λ place. Some (place_text place.0) };

    fn fmt<W: fmt::Write>(&self, f: &mut fmt::Formatter<W>) -> fmt::Result {
        match self.0 {
            Some(place) => write!(f, "{place}"),
            None => write!(f, "-"),
        }
    }
}

impl fmt::Display for Refusal {
    ghost output = { λ refusal. Some (line refusal) };

    fn fmt<W: fmt::Write>(&self, f: &mut fmt::Formatter<W>) -> fmt::Result {
        let number = self.number;
        let layer = self.layer;
        let block = Shown(self.block);
        let record = Shown(self.record);
        write!(
            f,
            "refused {number} layer {layer} block {block} record {record}"
        )
    }
}

impl fmt::Display for ProgramFault {
    ghost output = { λ fault. Some (line (program_refusal fault)) };

    fn fmt<W: fmt::Write>(&self, f: &mut fmt::Formatter<W>) -> fmt::Result {
        let refusal = self.refusal();
        write!(f, "{refusal}")
    }
}
