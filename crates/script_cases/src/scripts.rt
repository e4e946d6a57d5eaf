// The commands: a word, and in the further lines a script.
use crate::items::add_items;
use crate::reading::add_read;
use crate::script::read_script;
use crate::tokens::{add_plain, add_said, add_tokens};
use cases::Subject;
use std::alloc::{AllocError, Global};

/// What scripts are put to; nothing is kept from one command to the next.
#[derive(Drop)]
pub struct Scripts {
    alloc: Global,
}

impl Scripts {
    /// Scripts that are read with this memory.
    pub fn new(alloc: Global) -> Self {
        Scripts { alloc }
    }
}

// `tokens`: a line for each token. `said`: what the tokens say. `plain`: whether all between them is blank. `items`: a line
// for each. `read`: the same, as a reader gives them. A number behind the word says for how many `a` a `~` in the script stands.
fn answer_word(alloc: Global, word: &str, src: &[u8], out: &mut String) -> Result<(), AllocError> {
    match word {
        "tokens" => add_tokens(alloc, src, out),
        "said" => add_said(alloc, src, out),
        "plain" => add_plain(alloc, src, out),
        "items" => add_items(alloc, src, out),
        "read" => add_read(alloc, src, out),
        _ => out.push_str("no such command\n"),
    }
}

impl Subject for Scripts {
    fn begin(&mut self) -> Result<(), AllocError> {
        Ok(())
    }

    fn answer(&mut self, command: &str, out: &mut String) -> Result<(), AllocError> {
        let (head, text) = command.split_once('\n').unwrap_or((command, ""));
        let (word, run) = head.split_once(' ').unwrap_or((head, "0"));
        let src = read_script(self.alloc, text, run.parse().unwrap_or(0))?;
        answer_word(self.alloc, word, &src, out)
    }
}
