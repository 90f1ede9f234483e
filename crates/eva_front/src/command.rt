ghost use Rattle.std.specs.Prelude.{◌≡◌, map, MatchOption, Some, None, string_bytes};
ghost use Rattle.eva_front.specs.Command.{is_plain, meaning};

/// The file to read, and the function to analyse.
#[derive(Clone, Copy, Drop)]
pub struct Command<'a> {
    pub file: &'a str,
    pub entry: &'a str,
}

fn is_plain_word(word: &str) -> bool
    ensures { result ≡ is_plain word.now }
{
    match word.as_bytes().split_first() {
        Some((first, _)) => *first != b'-',
        None => false,
    }
}

/// What the words mean, if anything.
pub fn read_command(words: &[String]) -> Option<Command<'_>>
    ensures { MatchOption result (meaning (map string_bytes words.now) ≡ None) (λ c. meaning (map string_bytes words.now) ≡ Some (record { file = c.file.now; entry = c.entry.now })) }
{
    let (file, rest) = words.split_first()?;
    let (entry, rest) = rest.split_first()?;
    let (file, entry) = (file.as_str(), entry.as_str());
    let is_command = rest.is_empty()
        && is_plain_word(file)
        && is_plain_word(entry)
        && !file.as_bytes().starts_with(b"gen:");
    if is_command {
        Some(Command { file, entry })
    } else {
        None
    }
}
