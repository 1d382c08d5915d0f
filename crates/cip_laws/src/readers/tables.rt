// The tables, entry by entry.
ghost use Rattle.cip_laws.specs.Elements.{ElementsAreWritten};
ghost use Rattle.cip_laws.specs.HelpText.{HelpIsWritten};

/// The symbols of the elements, and their masses.
pub fn elements_are_written()
    ensures { ElementsAreWritten }
{}

/// The help text.
pub fn help_is_written()
    ensures { HelpIsWritten }
{}
