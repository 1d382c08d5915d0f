// The parts of a record.
ghost use Rattle.std.specs.Prelude.{◌≡◌};
ghost use Rattle.std.specs.List.{list_any};
ghost use Rattle.cip_text.specs.Kinds.{is_molecule_end};
ghost use Rattle.cip_text.specs.Slices.{texts};
ghost use Rattle.cip_item.specs.Parts.{first_part, part_of, part_behind, is_label_item};
ghost use Rattle.cip_item.specs.Items.{begins_item};
ghost use Rattle.cip_item.specs.Splitting.{is_item};

use crate::line_kinds::{is_heading, is_label_heading};
use cip_text::{is_blank, is_molecule_end};

// What a line belongs to, or what the lines before it left open.
#[derive(Clone, Copy)]
pub(crate) enum Part {
    Molecule,
    Between,
    OtherItem,
    LabelItem,
}

impl Part {
    // What is open before the first line of a record with these contents.
    pub(crate) fn before(contents: &[&[u8]]) -> Part
        ensures { result ≡ first_part (texts contents.now) }
    {
        if has_molecule_end(contents) {
            Part::Molecule
        } else {
            Part::Between
        }
    }

    // What a line with this content belongs to, where this part is open.
    pub(crate) fn of_line(self, content: &[u8]) -> Part
        ensures { result ≡ part_of self content.now }
    {
        match self {
            Part::Molecule => Part::Molecule,
            Part::LabelItem => Part::LabelItem,
            _ if is_label_heading(content) => Part::LabelItem,
            Part::Between if is_heading(content) => Part::OtherItem,
            open => open,
        }
    }

    // What a line of this part leaves open.
    pub(crate) fn behind(self, content: &[u8]) -> Part
        ensures { result ≡ part_behind self content.now }
    {
        match self {
            Part::Molecule if is_molecule_end(content) => Part::Between,
            Part::OtherItem | Part::LabelItem if is_blank(content) => Part::Between,
            part => part,
        }
    }

    // Whether a line with this content begins an item, where this part is open.
    pub(crate) fn begins_item(self, content: &[u8]) -> bool
        ensures { result ≡ begins_item self content.now }
    {
        match self {
            Part::Molecule => false,
            Part::Between => is_label_heading(content) || is_heading(content),
            Part::OtherItem | Part::LabelItem => is_label_heading(content),
        }
    }

    pub(crate) fn is_item(self) -> bool
        ensures { result ≡ is_item self }
    {
        matches!(self, Part::OtherItem | Part::LabelItem)
    }

    pub(crate) fn is_label_item(self) -> bool
        ensures { result ≡ is_label_item self }
    {
        matches!(self, Part::LabelItem)
    }
}

// Whether some line ends the molfile.
pub(crate) fn has_molecule_end(contents: &[&[u8]]) -> bool
    ensures { result ≡ list_any is_molecule_end (texts contents.now) }
{
    for content in contents {
        if is_molecule_end(content) {
            return true;
        }
    }
    false
}
