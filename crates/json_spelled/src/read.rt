ghost use Rattle.std.specs.Prelude.{◌≡◌, ◌≢◌, IfOk, IfErr, OnOk, MatchResult};
ghost use Rattle.json_spelled.specs.Grammar.{IsText};
ghost use Rattle.json_spelled.specs.Json.{Json};
ghost use Rattle.json_spelled.specs.Refusals.{level_limit, IsOffence, IsFirstOffence};
ghost use Rattle.json_spelled.specs.View.{json_of};
ghost use Rattle.json_spelled.specs.declared.tree.JsonFault.{JsonFault};

use crate::feed::Feed;
use crate::tree::{JsonFault, Tree};
use std::alloc::Global;

/// Reads a JSON text into its value.
///
/// The text is UTF-8, with or without a byte order mark at its beginning, and has at most 64 arrays and objects open at once. Members
/// keep the text's order, repeats included, and each number keeps its spelling. Escapes are decoded; a surrogate without its partner is
/// U+FFFD.
///
/// A refusal is the first offence: [`JsonFault::NotUtf8`], [`JsonFault::Syntax`] or [`JsonFault::TooDeep`] with its offset. If two have
/// the same offset, `NotUtf8` comes first. Only [`JsonFault::Memory`] is tied to no cause.
///
/// It takes time and memory in proportion to the number of bytes.
pub fn read_tree(alloc: Global, bytes: &[u8]) -> Result<Tree, JsonFault>
    // Each text that is read follows the grammar.
    ensures read { IfOk result (λ tree. IsText level_limit (json_of tree) bytes.now) }

    // Each text that follows the grammar is read, unless memory runs out.
    ensures only { (value : Json) → IsText level_limit value bytes.now
        → MatchResult result (λ tree. json_of tree ≡ value) (λ fault. fault ≡ JsonFault.Memory) }

    // A refusal names the first offence, and each text with an offence is refused.
    ensures refused { IfErr result (λ fault. fault ≢ JsonFault.Memory → IsFirstOffence bytes.now fault) }
    ensures no_offence { OnOk result ((fault : JsonFault) → IsOffence bytes.now fault → ⊥) }
{
    let mut feed = Feed::new(alloc);
    // `end` gives a refusal again.
    let _pushed = feed.push(bytes);
    feed.end()
}
