// Work that any thread can do.
ghost use Rattle.std.specs.Prelude.{◌≡◌, IfOk};

use std::alloc::AllocError;

/// A piece of work that any thread can do.
pub trait Job {
    type Out: Send + Drop;

    /// What a worker keeps from job to job, as memory that was reserved. It changes no answer.
    type State: Send + Drop;

    /// What the work answers.
    ghost answer: { Self → Self.Out };

    /// How much work it is, more or less. Workers share a batch by it; it changes no answer.
    fn weight(&self) -> u64;

    /// Does the work with a worker's state, whatever was done with it before. Only want of memory refuses it.
    fn work(&self, state: &mut Self::State) -> Result<Self::Out, AllocError>
        ensures { IfOk result (λ out. out ≡ answer self.now) };
}
