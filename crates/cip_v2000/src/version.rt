// The version of a molfile.
ghost use Rattle.std.specs.Prelude.{◌≡◌};
ghost use Rattle.cip_text.specs.Slices.{texts};
ghost use Rattle.cip_v2000.specs.Version.{version, is_v2000, is_v3000};

use cip_text::columns;

/// Whether the fourth of a record's lines, where there is one, has the version V3000.
pub fn is_v3000(lines: &[&[u8]]) -> bool
    ensures { result ≡ is_v3000 (texts lines.now) }
{
    match lines.get(3) {
        None => false,
        Some(line) => version(line) == b"V3000".as_slice(),
    }
}

/// Whether a line has the version V2000, or none at all.
pub fn is_v2000(line: &[u8]) -> bool
    ensures { result ≡ is_v2000 line.now }
{
    let version = version(line);
    version.is_empty() || version == b"V2000".as_slice()
}

fn version(line: &[u8]) -> &[u8]
    ensures { result.now ≡ version line.now }
{
    columns(line, 34, 39)
}
