ghost use Rattle.std.specs.Prelude.{◌≡◌};
ghost use Rattle.mc_cmd.specs.Codes.{code_of};

/// How a call of the command ended.
#[derive(Clone, Copy, Debug, PartialEq, Eq)]
pub enum Status {
    /// What was asked is answered.
    Done,
    /// The sources break rules.
    Rejected,
    /// The words mean no command.
    Usage,
    /// The run threw an exception that nothing caught.
    Threw,
    /// The run made as many calls as it may.
    Budget,
    /// The calls of the run stood as high as they may.
    TooDeep,
    /// A file or the input could not be read.
    ReadFault,
    /// The output or the error output could not be written.
    WriteFault,
    /// There was no room, or something was met that isn't to come (the README says what).
    Memory,
    /// There is no file of that name.
    Absent,
}

/// The program's exit status.
pub fn status_code(s: Status) -> u8
    ensures { result ≡ code_of s }
{
    match s {
        Status::Done => 0,
        Status::Rejected => 1,
        Status::Usage => 2,
        Status::Threw => 3,
        Status::Budget => 4,
        Status::TooDeep => 5,
        Status::ReadFault => 6,
        Status::WriteFault => 7,
        Status::Memory => 8,
        Status::Absent => 9,
    }
}
