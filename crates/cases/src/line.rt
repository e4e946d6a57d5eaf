// The lines of a file of cases.

// What a line of a file of cases says.
#[derive(Clone, Copy)]
pub(crate) enum Line<'a> {
    // The title of the case that begins here.
    Title(&'a str),
    // The first line of a command.
    Command(&'a str),
    // A further line of the command.
    More(&'a str),
    // For the eye alone.
    Blank,
    // A line of the answer, or a comment where there is no command yet.
    Other(&'a str),
}

pub(crate) fn read_line<'a>(line: &'a str) -> Line<'a> {
    if line.is_empty() {
        return Line::Blank;
    }
    if let Some(title) = line.strip_prefix("== ") {
        return Line::Title(title);
    }
    if let Some(command) = line.strip_prefix("> ") {
        return Line::Command(command);
    }
    match line.strip_prefix("| ") {
        Some(more) => Line::More(more),
        None => Line::Other(line),
    }
}
