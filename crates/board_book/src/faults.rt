//! Why a call of the board is refused.
ghost use Rattle.std.specs.Prelude.{◌≡◌};
ghost use Rattle.board_book.specs.Faults.{accept_fault};

/// Why an event was not recorded.
#[derive(Clone, Copy, Debug, PartialEq, Eq)]
pub enum BoardFault {
    /// The server has stopped.
    Halted,
    /// Memory was wanted and not found.
    NoMemory,
}

/// Why no connection was taken.
#[derive(Clone, Copy, Debug, PartialEq, Eq)]
pub enum AcceptFault {
    /// The server has stopped.
    Halted,
    /// No child takes a connection.
    NoChild,
    /// No slot is vacant.
    NoSlot,
    /// Memory was wanted and not found.
    NoMemory,
}

impl AcceptFault {
    /// The same of a call that takes no connection.
    pub fn of(fault: BoardFault) -> AcceptFault
        ensures { result ≡ accept_fault fault }
    {
        match fault {
            BoardFault::Halted => AcceptFault::Halted,
            BoardFault::NoMemory => AcceptFault::NoMemory,
        }
    }
}
