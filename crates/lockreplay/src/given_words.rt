//! The words of the command line before clap reads them: which command line it is, and `--json`, which may stand in each.
ghost use Rattle.std.specs.Prelude.{◌<◌, ◌+◌, take, drop, length, ◌≡◌, ◌++◌, List, Some, None, ◌∷◌, MatchOption, map, option_map, string_bytes, suc, false, true};
ghost use Rattle.lockreplay.specs.GivenWords.{IsPlaceOf, has_word, without_flag, without_word};
ghost use Rattle.lockreplay.specs.GivenWords as spec;

/// Whether these words, the first of which is the program's name, have this flag before the first `--`.
pub fn asks_for(words: &[String], flag: &str) -> bool
    ensures { result ≡ spec.asks_for flag.now (map string_bytes words.now) }
{
    place_of(words, flag).is_some()
}

/// Takes the flag out of these words, the first of which is the program's name, where it stands first before the first `--`, and tells
/// whether it stood there.
pub fn take_flag(words: &mut Vec<String>, flag: &str) -> bool
    ensures told { result ≡ spec.asks_for flag.now (map string_bytes words.old.items) }
    ensures left { map string_bytes words.new.items ≡ without_flag flag.now (map string_bytes words.old.items) }
{
    let Some(place) = place_of(words, flag) else {
        return false;
    };
    words.remove(place);
    true
}

/// Where the flag stands first behind the program's name and before the first `--`.
fn place_of(words: &[String], flag: &str) -> Option<usize>
    ensures { MatchOption result
        ((spec.asks_for flag.now (map string_bytes words.now) ≡ false)
        × (without_flag flag.now (map string_bytes words.now) ≡ map string_bytes words.now))
        (IsPlaceOf flag.now (map string_bytes words.now)) }
{
    for place in 1..words.len() {
        let word = words[place].as_str();
        if word == "--" {
            return None;
        }
        if word == flag {
            return Some(place);
        }
    }
    None
}
