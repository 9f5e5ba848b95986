/// What a run over several outputs does once an output is broken. If no sound output is left, the run ends in any case.
#[derive(Clone, Copy, Debug, PartialEq, Eq)]
pub enum OnBroken {
    /// The run goes on with the outputs that are left.
    Warn,
    /// The run ends once the other outputs have got the piece that was read.
    Exit,
    /// As `Warn`, but if an output's reader is gone nothing is said, and it is no fault.
    WarnNoPipe,
    /// As `Exit`, but if an output's reader is gone nothing is said, it is no fault, and the run goes on.
    ExitNoPipe,
    /// The run ends with the first output whose reader is gone, as a signal ends the system's tool: nothing is said,
    /// and the status is 141. If an output broke for another reason, the run goes on.
    Signal,
}
