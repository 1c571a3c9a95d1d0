// The weight of a word by how few places hold it.
ghost use Rattle.std.specs.Prelude.{◌≡◌, ◌≤◌};
ghost use Rattle.place_values.specs.Rarity as spec;

/// Returns the weight of a word that `count` of the `live` places hold: 1 to 20.
///
/// It is 1 if no place holds the word. Else it is one more than the number of times, at most 19, that `count` can double and still be at
/// most `live`: 20 if one of 1,000,000 places holds the word, 2 if half of the places do, 1 if all do.
pub fn rarity(live: u32, count: u32) -> u8
    requires { count ≤ live }
    ensures weight { result ≡ spec.rarity live count }
    ensures some { 1 ≤ result }
    ensures few { result ≤ 20 }
{
    if count == 0 {
        return 1;
    }
    1 + (live / count).ilog2().min(19) as u8
}
