// Why a run ends before all is done.

/// Why a run ends before all of its records are answered.
#[derive(Clone, Copy)]
pub enum StreamError {
    ReadFault,
    WriteFault,
    Memory,
    Limit,
}
