//! The commands of lines, and the tokens that name them.
ghost use Rattle.std.specs.Prelude.{◌≡◌};
ghost use Rattle.line_tokens.specs.Seen.{seen};
ghost use Rattle.query_lang.specs.Line.{command_named, command_of, asks};

use line_tokens::Token;
use query_replies::LineFault;

/// The kinds of query.
#[derive(Clone, Copy)]
pub(crate) enum Asked {
    Range,
    Box,
    Nearest,
    Top,
    Group,
    Gather,
}

/// What a line can do.
#[derive(Clone, Copy)]
pub(crate) enum Command {
    Add,
    Remove,
    Show,
    Count,
    Explain,
    Ask(Asked),
}

// The command with this name.
fn command_named(name: &str) -> Result<Command, LineFault>
    ensures { result ≡ command_named name.now }
{
    match name {
        "add" => Ok(Command::Add),
        "remove" => Ok(Command::Remove),
        "show" => Ok(Command::Show),
        "count" => Ok(Command::Count),
        "explain" => Ok(Command::Explain),
        "range" => Ok(Command::Ask(Asked::Range)),
        "box" => Ok(Command::Ask(Asked::Box)),
        "nearest" => Ok(Command::Ask(Asked::Nearest)),
        "top" => Ok(Command::Ask(Asked::Top)),
        "group" => Ok(Command::Ask(Asked::Group)),
        "gather" => Ok(Command::Ask(Asked::Gather)),
        _ => Err(LineFault::Command),
    }
}

/// Returns the command that a token names.
pub(crate) fn command_in(token: &Token) -> Result<Command, LineFault>
    ensures { result ≡ command_of (seen token.now) }
{
    match token {
        Token::Bare(name) => command_named(name),
        _ => Err(LineFault::Command),
    }
}

/// Returns the kind of query that a token names, or refuses with `Command` if it names none.
pub(crate) fn asked_in(token: &Token) -> Result<Asked, LineFault>
    ensures { result ≡ asks (command_of (seen token.now)) }
{
    match command_in(token)? {
        Command::Ask(asked) => Ok(asked),
        _ => Err(LineFault::Command),
    }
}
