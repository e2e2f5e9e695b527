//! The words of a call.
ghost use Rattle.std.specs.Prelude.{◌≡◌, ◌∷◌, [], MatchOption};
ghost use Rattle.amdl_app.specs.Command.{Asks, AskNothing};
ghost use Rattle.amdl_app.specs.Promises.{spelled};
ghost use Rattle.amdl_app.specs.Asked.{asked_for};

use net_runs::Mode;

/// What the words of a call ask for.
#[derive(Clone, Copy)]
pub enum Command<'a> {
    /// Analyse the network of this file.
    Analyse(&'a str),
    /// Check the network of this file.
    Check(&'a str),
    /// Write the network of this file in its canonical layout.
    Format(&'a str),
    /// Replay the schedule of the second file on the network of the first, over channels of this mode.
    Replay(Mode, &'a str, &'a str),
}

/// What the words ask for. None comes exactly where they are no row of the table.
pub fn command_of(words: &[String]) -> Option<Command<'_>>
    ensures { MatchOption result
        (AskNothing (spelled words.now)) (λ command. Asks (spelled words.now) (asked_for command)) }
{
    match words {
        [verb, network] => command_on(verb.as_str(), network.as_str()),
        [verb, network, second] => {
            command_on_two(verb.as_str(), network.as_str(), second.as_str())
        }
        _ => None,
    }
}

// What a verb with one word behind it asks for.
fn command_on<'a>(verb: &str, network: &'a str) -> Option<Command<'a>>
    ensures { MatchOption result
        (AskNothing (verb.now ∷ network.now ∷ []))
        (λ command. Asks (verb.now ∷ network.now ∷ []) (asked_for command)) }
{
    if verb == "analyse" {
        return Some(Command::Analyse(network));
    }
    if verb == "check" {
        return Some(Command::Check(network));
    }
    if verb == "format" {
        return Some(Command::Format(network));
    }
    None
}

// What a verb with two words behind it asks for.
fn command_on_two<'a>(verb: &str, network: &'a str, second: &'a str) -> Option<Command<'a>>
    ensures { MatchOption result
        (AskNothing (verb.now ∷ network.now ∷ second.now ∷ []))
        (λ command. Asks (verb.now ∷ network.now ∷ second.now ∷ []) (asked_for command)) }
{
    if verb == "replay" {
        return Some(Command::Replay(Mode::Unordered, network, second));
    }
    if verb == "replay-ordered" {
        return Some(Command::Replay(Mode::Ordered, network, second));
    }
    None
}
