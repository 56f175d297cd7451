// Why a labeller is not born, and why it takes no node.
ghost use Rattle.std.specs.Prelude.{◌≡◌};
ghost use Rattle.label.specs.Refusals.{birth_number, room_number, add_number};
ghost use Rattle.label.specs.declared.refusals.AddRefusal.TheVariants.{Node as Unfit, Room};

use nodes::NodeRefusal;

/// Why a labeller cannot work with what it was given at birth.
#[derive(Clone, Copy, PartialEq, Eq, Debug)]
pub enum BirthRefusal {
    /// A capacity is out of range.
    Capacity = 20,
    /// A piece of memory is too short.
    Memory = 21,
}

impl BirthRefusal {
    /// The number that the refusal has in messages.
    pub fn number(self) -> u8
        ensures { result ≡ birth_number self }
    {
        self as u8
    }
}

/// Why there is no room for a node.
#[derive(Clone, Copy, PartialEq, Eq, Debug)]
pub enum NoRoom {
    /// Its key is not held, and as many keys are held as there are places.
    Keys = 28,
    /// Its row is not held, and as many rows are held as there are places.
    Rows = 29,
}

impl NoRoom {
    /// The number that the refusal has in messages.
    pub fn number(self) -> u8
        ensures { result ≡ room_number self }
    {
        self as u8
    }
}

/// Why a node is not added.
#[derive(Clone, Copy, PartialEq, Eq, Debug)]
pub enum AddRefusal {
    /// It does not pass the checks.
    Node(NodeRefusal),
    /// There is no room for it.
    Room(NoRoom),
}

impl AddRefusal {
    /// The number that the refusal has in messages.
    pub fn number(self) -> u8
        ensures { result ≡ add_number self }
    {
        match self {
            AddRefusal::Node(e) => e.number(),
            AddRefusal::Room(e) => e.number(),
        }
    }
}

impl From<NodeRefusal> for AddRefusal {
    ghost from_gives = { λ e r. r ≡ Unfit e };

    fn from(e: NodeRefusal) -> AddRefusal {
        AddRefusal::Node(e)
    }
}

impl From<NoRoom> for AddRefusal {
    ghost from_gives = { λ e r. r ≡ Room e };

    fn from(e: NoRoom) -> AddRefusal {
        AddRefusal::Room(e)
    }
}
