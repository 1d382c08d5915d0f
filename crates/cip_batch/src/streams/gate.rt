// What a job passes before it begins.

/// What each job passes once, on the thread that works on it and before it begins. It changes no answer.
pub trait Gate {
    /// The job at this place of its batch, counted from 0, is about to begin.
    fn enter(&self, place: u64);
}

/// The gate that does nothing.
#[derive(Clone, Copy)]
pub struct Open;

impl Gate for Open {
    fn enter(&self, _place: u64) {}
}
