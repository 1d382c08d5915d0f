// Laws of alternating rings.
ghost use Rattle.cip_mancude.specs.SharedRings.{SharedRingsAreFound};

/// Two atoms share an alternating ring exactly where the search says so.
pub fn shared_rings_are_found()
    ensures { SharedRingsAreFound }
{}
