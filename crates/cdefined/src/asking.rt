//! What the words of the command line ask for.

/// How many turns a run has where no number is given.
const TURNS: u64 = 1000000;

/// What is asked: whether C defines the run of a source on an input, in so many turns.
#[derive(Drop)]
pub struct Asked<'a> {
    pub turns: u64,
    pub source: &'a str,
    pub input: &'a str,
}

/// What is asked of a source and an input, if the turns are a number.
fn in_turns<'a>(turns: &str, source: &'a str, input: &'a str) -> Option<Asked<'a>> {
    match turns.parse::<u64>() {
        Ok(turns) => Some(Asked {
            turns,
            source,
            input,
        }),
        Err(_) => None,
    }
}

/// What the words ask for, the program's own name first: `[--turns N] SRC INPUT`, or `--turns=N`. None where they ask
/// for nothing.
pub fn asked_by(words: &[String]) -> Option<Asked<'_>> {
    match words {
        [_, source, input] => Some(Asked {
            turns: TURNS,
            source: source.as_str(),
            input: input.as_str(),
        }),
        [_, option, source, input] => {
            let turns = option.as_str().strip_prefix("--turns=")?;
            in_turns(turns, source.as_str(), input.as_str())
        }
        [_, option, turns, source, input] if option.as_str() == "--turns" => {
            in_turns(turns.as_str(), source.as_str(), input.as_str())
        }
        _ => None,
    }
}
