//! Headings by their names.
ghost use Rattle.std.specs.Prelude.{◌≡◌};
ghost use Rattle.std.specs.Option.{option_copied};
ghost use Rattle.std.specs.Str.{bytes_eq};
ghost use Rattle.version_graph.specs.Tables.{heading_named as heading_named_lem};

use crate::Heading;
use par_base::Name;
use std::iter::Iterator;

/// Whether a table has this name.
pub fn is_named(heading: &Heading, name: &Name) -> bool
    ensures { result ≡ bytes_eq heading.now.name name.now }
{
    heading.name.as_str().as_bytes() == name.as_str().as_bytes()
}

/// The first of these headings with this name. It takes one comparison for each heading before it.
pub fn heading_named<'a>(headings: &'a [Heading], name: &Name) -> Option<&'a Heading>
    ensures { option_copied result ≡ heading_named_lem headings.entry.now name.now }
{
    headings.iter().find(|heading| is_named(heading, name))
}
