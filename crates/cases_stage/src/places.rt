// The places that replies tell, and whether replies are as the rules of a session say.

/// The number after a word of a text, at its first place; none where the word is not there, or no
/// number stands after it.
pub fn number_after(text: &str, word: &str) -> Option<u64> {
    let mut is_next = false;
    for found in text.split_whitespace() {
        if is_next {
            return found.parse().ok();
        }
        is_next = found == word;
    }
    None
}

/// The last number after the word `at`, 0 where there is none.
pub fn last_place(output: &[u8]) -> Option<u64> {
    let mut last = Some(0);
    let mut is_next = false;
    for word in str::from_utf8(output).ok()?.split_whitespace() {
        if is_next {
            last = word.parse().ok();
        }
        is_next = word == "at";
    }
    last
}

/// Whether the places of lines never fall. A line may tell none.
pub fn never_go_back(output: &[u8]) -> bool {
    let mut last = 0;
    for line in str::from_utf8(output).unwrap_or("").lines() {
        if let Some(at) = number_after(line, "at") {
            if at < last {
                return false;
            }
            last = at;
        }
    }
    true
}

/// The id that a session was told, where its replies are a welcome, an admission, that there is no
/// VPN 999, and the end, at places that never go back.
pub fn admitted(output: &[u8]) -> Option<u64> {
    if !never_go_back(output) {
        return None;
    }
    admitted_in(str::from_utf8(output).ok()?)
}

fn admitted_in(replies: &str) -> Option<u64> {
    let mut lines = replies.lines();
    let (welcome, admission) = (lines.next()?, lines.next()?);
    let (none, end) = (lines.next()?, lines.next()?);
    if lines.next().is_some() {
        return None;
    }
    if !are_around(welcome, none, end) {
        return None;
    }
    number_after(admission, "admitted")
}

// Whether these are a welcome, that there is no VPN 999, and the end.
fn are_around(welcome: &str, none: &str, end: &str) -> bool {
    if !welcome.starts_with("welcome at ") {
        return false;
    }
    if !none.starts_with("no vpn 999 at ") {
        return false;
    }
    end == "bye"
}
