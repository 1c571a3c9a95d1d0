//! The members of an object. If a name is repeated, the last member with that name counts.
ghost use Rattle.std.specs.Prelude.{◌≡◌, reverse, find, option_map, option_copied, string_bytes, bytes_eq};
ghost use Rattle.json_spelled.specs.Json.{no_members, members_onto};
ghost use Rattle.json_spelled.specs.View.{json_of, jsons_of, entries_of};
ghost use Rattle.geojson_points.specs.Object.{last_of, member_of, string_of, spelling_of, array_of, has_type};

use json_spelled::Tree;

/// Returns the member with a name, or `None` if the value is not an object or has no such member.
pub(crate) fn member<'a>(tree: &'a Tree, name: &str) -> Option<&'a Tree>
    ensures { option_map json_of (option_copied result) ≡ member_of name.now (json_of tree.now) }
{
    match tree {
        Tree::Members(members) => last(members, name),
        _ => None,
    }
}

/// The value of the last member with a name.
fn last<'a>(members: &'a [(String, Tree)], name: &str) -> Option<&'a Tree>
    ensures { option_map json_of (option_copied result) ≡ last_of name.now (members_onto (entries_of members.now) no_members) }
{
    match last_member(members, name) {
        Some((_, value)) => Some(value),
        None => None,
    }
}

/// The last member with a name, the name included.
fn last_member<'a>(members: &'a [(String, Tree)], name: &str) -> Option<&'a (String, Tree)>
    ensures { option_copied result ≡ find (λ m. bytes_eq (string_bytes m.0) name.now) (reverse members.now) }
{
    members.iter().rev().find(|m| m.0.as_str() == name)
}

/// Returns the content of a string, or `None` if the value is not a string.
pub(crate) fn string(tree: &Tree) -> Option<&str>
    ensures { option_copied result ≡ string_of (json_of tree.now) }
{
    match tree {
        Tree::Text(text) => Some(text.as_str()),
        _ => None,
    }
}

/// Returns the spelling of a number, or `None` if the value is not a number.
pub(crate) fn spelling(tree: &Tree) -> Option<&str>
    ensures { option_copied result ≡ spelling_of (json_of tree.now) }
{
    match tree {
        Tree::Spelled(number) => Some(number.as_str()),
        _ => None,
    }
}

/// Returns the elements of an array, or `None` if the value is not an array.
pub(crate) fn array(tree: &Tree) -> Option<&[Tree]>
    ensures { option_map jsons_of (option_copied result) ≡ array_of (json_of tree.now) }
{
    match tree {
        Tree::List(items) => Some(items),
        _ => None,
    }
}

/// Returns whether the value is an object whose `type` is this text.
pub(crate) fn has_type(tree: &Tree, name: &str) -> bool
    ensures { result ≡ has_type name.now (json_of tree.now) }
{
    match member(tree, "type") {
        Some(value) => string(value) == Some(name),
        None => false,
    }
}
