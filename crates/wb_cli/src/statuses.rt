//! How a call ends, and its exit status.
ghost use Rattle.std.specs.Prelude.{◌≡◌};
ghost use Rattle.wb_cli.specs.Status.{ending_status, status_number};

use wb_compare::Spent;

/// How a call of the program ended.
#[derive(Drop)]
pub enum Status {
    /// The work is done.
    Fine,
    /// The images differ, or the script ended early or silent.
    Shown,
    /// The words are no command line of this program. No file was read.
    BadWords,
    /// A file is too long, or its content isn't what the command wants.
    Refused,
    /// A chip touches its port at the wrong time.
    Breach,
    /// The budget of the comparison was too small, and this is what was spent.
    Unknown(Spent),
    /// A file couldn't be read.
    ReadFault,
    /// The report couldn't be written whole.
    WriteFault,
    /// Memory was refused. Nothing was written.
    NoMemory,
}

impl Status {
    /// The exit status of the process.
    pub fn number(&self) -> u8
        ensures { result ≡ status_number self.now }
    {
        match self {
            Status::Fine => 0,
            Status::Shown => 1,
            Status::BadWords => 2,
            Status::Refused => 3,
            Status::Breach => 4,
            Status::Unknown(_) => 5,
            Status::ReadFault => 6,
            Status::WriteFault => 7,
            Status::NoMemory => 8,
        }
    }
}

/// How a call ends whose report was written whole.
#[derive(Drop)]
pub enum Ending {
    Fine,
    Shown,
    BadWords,
    Refused,
    Breach,
    Unknown(Spent),
    ReadFault,
}

impl Ending {
    pub fn status(self) -> Status
        ensures { result ≡ ending_status self }
    {
        match self {
            Ending::Fine => Status::Fine,
            Ending::Shown => Status::Shown,
            Ending::BadWords => Status::BadWords,
            Ending::Refused => Status::Refused,
            Ending::Breach => Status::Breach,
            Ending::Unknown(spent) => Status::Unknown(spent),
            Ending::ReadFault => Status::ReadFault,
        }
    }
}
