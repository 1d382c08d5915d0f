// Limits of a run.

/// How many bytes a record and the whole input may have.
#[derive(Clone, Copy)]
pub struct Limits {
    pub record: u64,
    pub input: u64,
}

/// The limits of a run: 16 MiB a record and 2^40 bytes an input.
pub const LIMITS: Limits = Limits {
    record: 16_777_216,
    input: 1_099_511_627_776,
};
