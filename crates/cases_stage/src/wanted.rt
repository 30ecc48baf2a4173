// What was given beside what is wanted, of which a line may have gaps.
use cases_files::GAP;

/// Whether what was given is as it is wanted.
pub fn is_as_wanted(given: &[u8], wanted: &[u8]) -> bool {
    if given == wanted {
        return true;
    }
    let (given, wanted) = from_difference(given, wanted);
    given.is_empty() && wanted.is_empty()
}

/// Both from the first line on that is not as it is wanted: nothing where each is.
pub fn from_difference<'a>(given: &'a [u8], wanted: &'a [u8]) -> (&'a [u8], &'a [u8]) {
    let (mut given, mut wanted) = (given, wanted);
    for _ in 0..given.len() {
        let (line, after) = first_line(given);
        let (form, others) = first_line(wanted);
        if line.is_empty() || !has_form(line, form) {
            break;
        }
        (given, wanted) = (after, others);
    }
    (given, wanted)
}

/// Whether what was given is a front of what is wanted. It may end within a line, of which nothing
/// behind the first gap is looked at.
pub fn is_front(given: &[u8], wanted: &[u8]) -> bool {
    let (line, form) = from_difference(given, wanted);
    let (form, _) = first_line(form);
    match (str::from_utf8(line), str::from_utf8(form)) {
        (Ok(line), Ok(form)) => is_begun(line, form),
        _ => false,
    }
}

// Whether a text that is no whole line may be the beginning of one of a form.
fn is_begun(text: &str, form: &str) -> bool {
    if text.contains('\n') {
        return false;
    }
    match form.split_once(GAP) {
        Some((front, _)) => front.starts_with(text) || text.starts_with(front),
        None => form.starts_with(text),
    }
}

// The first line of some bytes, with its line feed, and what stands after it.
fn first_line(bytes: &[u8]) -> (&[u8], &[u8]) {
    for place in 0..bytes.len() {
        if bytes[place] == b'\n' {
            return bytes.split_at(place + 1);
        }
    }
    (bytes, &[])
}

// Whether a line is of a form: the same, but for some text at each gap.
fn has_form(line: &[u8], form: &[u8]) -> bool {
    if line == form {
        return true;
    }
    match (str::from_utf8(line), str::from_utf8(form)) {
        (Ok(line), Ok(form)) => after_parts(line, form) == Some(""),
        _ => false,
    }
}

// What stands in a line after the parts of a form, with some text at each gap between them. The
// last part has the line feed, so it stands at the end alone.
fn after_parts<'a>(line: &'a str, form: &str) -> Option<&'a str> {
    let mut parts = form.split(GAP);
    let mut rest = line.strip_prefix(parts.next()?)?;
    for part in parts {
        let (between, after) = rest.split_once(part)?;
        if between.is_empty() {
            return None;
        }
        rest = after;
    }
    Some(rest)
}
