// Why a nomination file is refused: a fault of its text, of the register or of the book.
ghost use Rattle.std.specs.Prelude.{◌≡◌};
ghost use Rattle.intake.specs.Faults.{register_report, book_report, file_report, file_layer};
ghost use Rattle.intake.specs.declared.fault.FileFault.TheVariants.{Text, Register, Book};

use nomination::{FaultReport, TextFault};

/// What the register says against a file; lines are counted from 1.
#[derive(Clone, Copy, PartialEq, Eq, Debug)]
pub enum RegisterFault {
    /// The header's party is not registered.
    UnknownFiler,
    /// The header's date is not the day's.
    OtherDate,
    /// The northern code is not registered as Northern.
    UnknownNorth { line: usize },
    /// The southern code is not registered as Southern.
    UnknownSouth { line: usize },
    /// The party that files is neither of the two.
    AbsentFiler { line: usize },
    /// The day has no such period.
    NoSuchPeriod { line: usize },
}

/// What the book says against a file.
#[derive(Clone, Copy, PartialEq, Eq, Debug)]
pub enum BookFault {
    /// The books are not as long as at opening.
    OtherLength,
    /// No more files are taken on the day.
    FilesFull,
    /// An entry stands under the line's key, in the book or from an earlier line.
    KnownKey { line: usize },
    /// The book has no space for the line's entry.
    BookFull { line: usize },
}

/// Why a file is refused; a fault of a lower layer is carried whole.
#[derive(Clone, Copy, PartialEq, Eq, Debug)]
pub enum FileFault {
    Text(TextFault),
    Register(RegisterFault),
    Book(BookFault),
}

/// What a fault is a fault of.
// The cases of `FileFault` again, without what they carry: members are told the layer by itself.
#[derive(Clone, Copy, PartialEq, Eq, Debug)]
pub enum Layer {
    Text,
    Register,
    Book,
}

// The reports of the layers stay numbers, as members read them, 0 where there is none.
impl RegisterFault {
    /// The fault's number, line and field.
    pub fn report(self) -> FaultReport
        ensures { result ≡ register_report self }
    {
        let (number, line, field) = match self {
            RegisterFault::UnknownFiler => (14, 1, 4),
            RegisterFault::OtherDate => (14, 1, 5),
            RegisterFault::UnknownNorth { line } => (15, line, 3),
            RegisterFault::UnknownSouth { line } => (15, line, 4),
            RegisterFault::AbsentFiler { line } => (15, line, 0),
            RegisterFault::NoSuchPeriod { line } => (9, line, 2),
        };
        FaultReport {
            number,
            line,
            field,
        }
    }
}

impl BookFault {
    /// The fault's number, line and field.
    pub fn report(self) -> FaultReport
        ensures { result ≡ book_report self }
    {
        let (number, line) = match self {
            BookFault::OtherLength => (3, 0),
            BookFault::FilesFull => (17, 1),
            BookFault::KnownKey { line } => (16, line),
            BookFault::BookFull { line } => (17, line),
        };
        FaultReport {
            number,
            line,
            field: 0,
        }
    }
}

impl FileFault {
    /// The fault's number, line and field.
    pub fn report(self) -> FaultReport
        ensures { result ≡ file_report self }
    {
        match self {
            FileFault::Text(fault) => fault.report(),
            FileFault::Register(fault) => fault.report(),
            FileFault::Book(fault) => fault.report(),
        }
    }

    /// What it is a fault of.
    pub fn layer(self) -> Layer
        ensures { result ≡ file_layer self }
    {
        match self {
            FileFault::Text(_) => Layer::Text,
            FileFault::Register(_) => Layer::Register,
            FileFault::Book(_) => Layer::Book,
        }
    }
}

impl From<TextFault> for FileFault {
    ghost from_gives = { λ e r. r ≡ Text e };

    fn from(fault: TextFault) -> FileFault {
        FileFault::Text(fault)
    }
}

impl From<RegisterFault> for FileFault {
    ghost from_gives = { λ e r. r ≡ Register e };

    fn from(fault: RegisterFault) -> FileFault {
        FileFault::Register(fault)
    }
}

impl From<BookFault> for FileFault {
    ghost from_gives = { λ e r. r ≡ Book e };

    fn from(fault: BookFault) -> FileFault {
        FileFault::Book(fault)
    }
}
