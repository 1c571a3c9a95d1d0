//! Makes the text of an item.
ghost use Rattle.std.specs.Prelude.{◌≡◌, map, IfOk, OnOk, option_copied, string_bytes};
ghost use Rattle.json_spelled.specs.Json.{Members, member, no_members, members_onto};
ghost use Rattle.json_spelled.specs.View.{json_of, entries_of};
ghost use Rattle.geojson_points.specs.Object.{line_of, lines_of, strings_of};
ghost use Rattle.geojson_points.specs.Feature.{text_of};
ghost use Rattle.geojson_points.specs.Gathered.{Gathers};

use crate::object::{member, string};
use json_spelled::Tree;
use std::alloc::{AllocError, Global};
use std::collections::BTreeSet;

/// Returns the strings among an item's properties joined by LF, or the string of the one property that `only` names.
pub(crate) fn text(alloc: Global, item: &Tree, only: Option<&str>) -> Result<String, AllocError>
    ensures { IfOk result (λ text. string_bytes text ≡ text_of (option_copied only.entry) (json_of item.now)) }
{
    let Some(properties) = member(item, "properties") else {
        return Ok(String::new(alloc));
    };
    match only {
        Some(name) => String::from_str(alloc, line(properties, name)),
        None => lines(alloc, properties),
    }
}

/// The string of a member, or the empty text if there is none.
fn line<'a>(properties: &'a Tree, name: &str) -> &'a str
    ensures { result.now ≡ line_of name.now (json_of properties.now) }
{
    match member(properties, name) {
        Some(value) => string(value).unwrap_or(""),
        None => "",
    }
}

/// The strings among the members, joined by LF.
fn lines(alloc: Global, properties: &Tree) -> Result<String, AllocError>
    ensures { IfOk result (λ text. string_bytes text ≡ lines_of (json_of properties.now)) }
{
    match properties {
        Tree::Members(members) => strings(alloc, members)?.join(alloc, "\n"),
        _ => Ok(String::new(alloc)),
    }
}

/// The strings among the members, in their order, except of those whose name comes again later.
fn strings<'a>(alloc: Global, members: &'a [(String, Tree)]) -> Result<Vec<&'a str>, AllocError>
    ensures { IfOk result (λ texts. map (λ t. t.now) texts.items ≡ strings_of (members_onto (entries_of members.now) no_members)) }
{
    let mut gathered = Gathered {
        names: BTreeSet::new(alloc),
        strings: Vec::new(alloc),
    };
    for (name, value) in members.iter().rev() {
        gathered.put_before(name.as_str(), value)?;
    }
    let mut strings = gathered.strings;
    strings.reverse();
    Ok(strings)
}

/// The last members of an object, gathered from the last to the first.
///
/// The set of their names keeps the work near their number: no name is compared with all others.
#[derive(Drop)]
struct Gathered<'a> {
    names: BTreeSet<&'a str>,
    /// The strings that count, in reverse order.
    strings: Vec<&'a str>,
}

impl<'a> Gathered<'a> {
    /// Gathers the member before those gathered. Its string counts if its name is new.
    fn put_before(&mut self, name: &'a str, value: &'a Tree) -> Result<(), AllocError>
        ensures { (members : Members) → Gathers members self.old.names self.old.strings.items
            → OnOk result (Gathers (member name.now (json_of value.now) members) self.new.names self.new.strings.items) }
    {
        if self.names.insert(name)? {
            if let Some(text) = string(value) {
                self.strings.push(text)?;
            }
        }
        Ok(())
    }
}
