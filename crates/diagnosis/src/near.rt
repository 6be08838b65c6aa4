//! Which word may have been meant.
ghost use Rattle.std.specs.Prelude.{◌≤◌, length};

/// The first of the words that is near this one: the same but for the case of its letters, or one letter away.
pub fn nearest(word: &str, words: &[&'static str]) -> Option<&'static str> {
    for known in words {
        if is_near(word.as_bytes(), known.as_bytes()) {
            return Some(known);
        }
    }
    None
}

/// Whether the words differ in the case of letters alone, or in one letter that is another, is missing, is too much, or changed places with
/// the next one. A word of one letter is near none but the same in another case.
fn is_near(word: &[u8], known: &[u8]) -> bool {
    if word.eq_ignore_ascii_case(known) {
        return true;
    }
    if word.len() < 2 || known.len() < 2 {
        return false;
    }
    let front = equal_front(word, known);
    let (word, known) = (&word[front..], &known[front..]);
    match (word, known) {
        ([_, word @ ..], [_, known @ ..]) if word == known => true,
        ([_, word @ ..], known) if word == known => true,
        (word, [_, known @ ..]) if word == known => true,
        ([first, second, word @ ..], [third, fourth, known @ ..]) => {
            word == known && first == fourth && second == third
        }
        _ => false,
    }
}

/// How many bytes at the front of both are equal.
fn equal_front(word: &[u8], known: &[u8]) -> usize
    ensures { (result ≤ length word.now) × (result ≤ length known.now) }
{
    let most = word.len().min(known.len());
    for place in 0..most {
        if word[place] != known[place] {
            return place;
        }
    }
    most
}
