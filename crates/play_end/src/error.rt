use play_report::Positions;

/// Why a play has no report.
#[derive(Drop)]
pub enum PlayError {
    /// The reachable objects filled all cells when a `new` came. Has how far each section came.
    Full(Positions),
    /// Memory ran out.
    OutOfMemory,
}
