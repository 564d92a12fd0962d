ghost use Rattle.std.specs.Prelude.{map, string_bytes};
ghost use Rattle.ante_node.specs.Commands.{ReadsCommand};

/// What the program is to do.
#[derive(Clone, Copy, Debug, PartialEq, Eq)]
pub enum Command {
    /// Answers one transaction on the built-in genesis.
    Ask,
}

/// The command that the words name, or the number of the word at fault: the first that no accepted list has after the
/// words before it, or the number of words where more are needed.
pub fn read_command(words: &[String]) -> Result<Command, u64>
    ensures { ReadsCommand (map string_bytes words.now) result }
{
    let Some((first, others)) = words.split_first() else {
        return Err(0);
    };
    if first.as_str() != "ask" {
        return Err(0);
    }
    if others.is_empty() {
        Ok(Command::Ask)
    } else {
        Err(1)
    }
}
