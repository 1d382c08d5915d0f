// Made records that are to be labelled.
ghost use Rattle.std.specs.Prelude.{◌≤◌};

use cip_words::{Labelling, Series};
use std::alloc::Global;
use std::marker::PhantomData;

/// Made records, and by what they are labelled.
#[derive(Clone, Copy)]
pub struct LabelledSeries {
    pub series: Series,
    pub labelling: Labelling,
}

/// One of the records by its number, which is from 1 on. Whose digraphs it is labelled in follows from the type alone.
#[derive(Drop)]
pub struct SeriesRecord<D> {
    pub alloc: Global,
    pub trial: LabelledSeries,
    pub number: u32,
    pub digraphs: PhantomData<D>,
    ghost above: { 1 ≤ number },
    ghost below: { number ≤ 100000 },
}
