//! How a call of the program ends.
ghost use Rattle.std.specs.Prelude.{◌≡◌};
ghost use Rattle.psm_files.specs.Status.{number_of};

/// How a call of the program ends. The process exits with the status's number.
#[derive(Clone, Copy, Debug, PartialEq, Eq)]
pub enum Status {
    /// The script was run to its end.
    Done,
    /// The words have no form.
    Usage,
    /// A file that the words name could not be read.
    ReadFault,
    /// The output could not be written.
    WriteFault,
    /// The module file is refused.
    ModuleRefused,
    /// The script is refused.
    ScriptRefused,
    /// The turns ran out.
    TurnsUsed,
    /// There was not enough memory.
    Memory,
    /// The object file is refused.
    ObjectRefused,
    /// A file is too long.
    TooLong,
}

impl Status {
    /// 0 to 9, in the order of the list.
    pub fn number(self) -> u8
        ensures { result ≡ number_of self }
    {
        self as u8
    }
}
