// What is asked of each record of a stream.
use cip_words::{Labelling, Task};
use std::marker::PhantomData;

/// What is asked of each record: what is done with it, and by what it is labelled. Whose digraphs it is labelled in
/// follows from the type alone.
#[derive(Drop)]
pub struct TaskProcessor<D> {
    pub task: Task,
    pub labelling: Labelling,
    pub digraphs: PhantomData<D>,
}
