// Laws of the text that is due for a stream.
ghost use Rattle.cip_batch.specs.Dividing.{StreamsDivide};

/// Where nothing that is due depends on a record's number, what is due for a stream within the limits is due for its
/// front up to a closed record, and then for what follows.
pub fn streams_divide<N>()
    ensures { StreamsDivide N }
{}
